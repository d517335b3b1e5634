// Stretches of marked places: the columns of one row that are marked one after another.
ghost use Rattle.std.specs.Prelude.{◌≡◌};
ghost use Rattle.std.specs.Iterator.{at_most};
ghost use Rattle.toom.specs.Stretches.{YieldsStretch, places_left};

use crate::rows::first_span;
use crate::shadow::Shadow;

// It begins at this row and column.
#[derive(Clone, Copy, PartialEq, Eq, Debug)]
pub struct Stretch {
    pub row: usize,
    pub column: usize,
    pub length: usize,
}

// The reader of a shadow's stretches, row by row: the shadow, and the place where it looks next.
#[derive(Drop)]
pub struct Stretches<'a> {
    shadow: &'a Shadow,
    row: usize,
    column: usize,
}

impl Shadow {
    // From the first place on.
    pub fn stretches(&self) -> Stretches<'_>
        ensures shadow { result.shadow.now ≡ self.now }
        ensures row { result.row ≡ 0 }
        ensures column { result.column ≡ 0 }
    {
        Stretches {
            shadow: self,
            row: 0,
            column: 0,
        }
    }
}

// The next stretch, or none after the last.
impl<'a> Iterator for Stretches<'a> {
    type Item = Stretch;

    ghost next_gives = { λ s r t. YieldsStretch s r t };

    ghost remaining = { λ s. at_most (places_left s) };

    fn next(&mut self) -> Option<Stretch> {
        let side = self.shadow.side;
        let mut column = self.column;
        for row in self.row..side {
            if let Some(span) = first_span(self.shadow.rows[row], column) {
                self.row = row;
                self.column = span.column + span.length;
                return Some(Stretch {
                    row,
                    column: span.column,
                    length: span.length,
                });
            }
            column = 0;
        }
        self.row = side;
        None
    }
}
