// The calls on a shadow: make it empty, add a place, ask one, vote it whole, count its places, ask whether there are any, write its rows.
ghost use Rattle.std.specs.Prelude.{◌≡◌, ◌↔◌, Decides, IsTrue, false};
ghost use Rattle.toom.specs.EqualShadows.{equal_shadows_laws};
ghost use Rattle.toom.specs.Shadow.{marks, side_of_shadow, equal_shadows};
ghost use Rattle.toom.specs.ShadowCalls.{Emptied, Asked, Added, Voted, Written};
ghost use Rattle.toom.specs.Torus.{Everywhere, Side, count_marks};

use crate::rows::{are_clear, count_columns, vote_rows, with_column};
use crate::shadow::{MAX_SIDE, MIN_SIDE, Shadow};

// The row or the column of a place is not below the side.
#[derive(Clone, Copy, PartialEq, Eq, Debug)]
pub struct OffTorus;

// An output has fewer words than the shadow has rows.
#[derive(Clone, Copy, PartialEq, Eq, Debug)]
pub struct TooShort;

impl Shadow {
    pub fn empty(side: usize) -> Option<Shadow>
        ensures { Emptied side result }
    {
        if side < MIN_SIDE || side > MAX_SIDE {
            return None;
        }
        Some(Shadow {
            side,
            rows: [0; MAX_SIDE],
        })
    }

    pub fn side(&self) -> usize
        ensures side { result ≡ side_of_shadow self.now }
        ensures sized { Side result }
    {
        self.side
    }

    // Whether the place is marked. Row and column are two numbers, and not a type of places: each may be off the torus, which is asked.
    pub fn holds(&self, row: usize, column: usize) -> Option<bool>
        ensures { Asked self.now row column result }
    {
        if row < self.side && column < self.side {
            Some(self.rows[row] >> (63 - column) & 1 == 1)
        } else {
            None
        }
    }

    pub fn add(&mut self, row: usize, column: usize) -> Result<(), OffTorus>
        ensures { Added self.old row column result self.new }
    {
        let side = self.side;
        if row >= side || column >= side {
            return Err(OffTorus);
        }
        self.rows[row] = with_column(self.rows[row], column, side);
        Ok(())
    }

    pub fn vote(&mut self)
        ensures { Voted self.old self.new }
    {
        let side = self.side;
        vote_rows(&mut self.rows, side);
    }

    #[tactic(auto, using(crate::proofs::Shadows::counted_all))]
    pub fn count(&self) -> usize
        ensures { result ≡ count_marks (side_of_shadow self.now) (marks self.now) }
    {
        count_columns(&self.rows[..self.side])
    }

    // Whether no place is marked.
    pub fn is_empty(&self) -> bool
        ensures { IsTrue result
            ↔ Everywhere (side_of_shadow self.now) (λ r c. marks self.now r c ≡ false) }
    {
        are_clear(&self.rows[..self.side])
    }

    pub fn write(&self, out: &mut [u64]) -> Result<(), TooShort>
        ensures { Written self.now out.old result out.new }
    {
        let side = self.side;
        if out.len() < side {
            return Err(TooShort);
        }
        out[0..side].copy_from_slice(&self.rows[0..side]);
        Ok(())
    }
}

// By hand, since the derived one does not say that it decides equality.
impl PartialEq for Shadow {
    ghost eq = { equal_shadows };

    ghost laws = { equal_shadows_laws };

    // Two shadows are the same exactly where they are equal.
    fn eq(&self, other: &Shadow) -> bool
        ensures value { result ≡ equal_shadows self.now other.now }
        ensures decides { Decides result (self.now ≡ other.now) }
    {
        if self.side != other.side {
            return false;
        }
        self.rows == other.rows
    }
}
