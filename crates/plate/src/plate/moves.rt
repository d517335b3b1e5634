// What each call on a plate does: asks its questions in order, and only then writes. `same` as in `calls`: of a plate before and after, so that no
// field could say it.
ghost use Rattle.std.specs.Prelude.{◌≡◌};
ghost use Rattle.plate.specs.BeatsCall.{BeatsAnswer, VotedBy};
ghost use Rattle.plate.specs.Faults.{lay_fault, strike_fault, beat_fault, read_fault, map_fault, shadow_fault};
// `Strike` is the call in a clause; the struct is named by its path.
ghost use Rattle.plate.specs.History.{Lay, Strike, Beat, Read, Map, Show};
ghost use Rattle.plate.specs.Plates.{board, members, Answers};

use crate::checks::{check_lay, check_strike};
use crate::fault::{BeatFault, LayFault, MapFault, ReadFault, ShadowFault, StrikeFault};
use crate::laid::{Laid, MAX_AGE};
use crate::laying::lay_cells;
use crate::many::many_beats;
use crate::mapping::write_map;
use crate::plate::Plate;
use crate::reading::{first_split, write_reading};
use crate::sweep::{beat_cells, put};
use hosts::host::Host;
use toom::kind::Kind;
use toom::shadow::Shadow;

impl<'a, C: Kind> Plate<'a, C> {
    pub(crate) fn try_lay(
        &mut self,
        planes: usize,
        side: usize,
        tape: &[u8],
    ) -> Result<(), LayFault>
        ensures outcome { Answers (members C.eq C.byte_of C.cell_of) lay_fault (Lay planes side tape.now) result (board self.old) (board self.new) }
        ensures same { self.new.cells.ghost_name ≡ self.old.cells.ghost_name }
    {
        let shadow = check_lay::<C>(planes, side, tape, self.cells.len())?;
        let laid = Laid {
            planes,
            age: 0,
            shadow,
        };
        lay_cells(self.cells, laid.shape(), tape);
        self.laid = Some(laid);
        Ok(())
    }

    pub(crate) fn try_strike(&mut self, strike: crate::strike::Strike) -> Result<(), StrikeFault>
        ensures outcome { Answers (members C.eq C.byte_of C.cell_of) strike_fault (Strike strike.plane strike.row strike.column strike.byte) result (board self.old) (board self.new) }
        ensures same { self.new.cells.ghost_name ≡ self.old.cells.ghost_name }
    {
        let mut laid = self.standing().ok_or(StrikeFault::Bare)?;
        let side = laid.shadow.side();
        let cell = check_strike::<C>(laid.planes, side, strike)?;
        laid.shadow.add(strike.row, strike.column)?;
        put(
            self.cells,
            strike.plane * (side * side) + (strike.row * side + strike.column),
            cell,
        );
        self.laid = Some(laid);
        Ok(())
    }

    pub(crate) fn try_beat<H: Host<C>>(&mut self, host: &H) -> Result<(), BeatFault>
        ensures outcome { Answers (members C.eq C.byte_of C.cell_of) beat_fault (Beat (H.meaning host.now)) result (board self.old) (board self.new) }
        ensures same { self.new.cells.ghost_name ≡ self.old.cells.ghost_name }
    {
        let mut laid = self.standing().ok_or(BeatFault::Bare)?;
        if laid.age >= MAX_AGE {
            return Err(BeatFault::Age);
        }
        beat_cells(host, self.cells, laid.shape());
        laid.shadow.vote();
        laid.age += 1;
        self.laid = Some(laid);
        Ok(())
    }

    pub(crate) fn try_beats<H: Host<C>>(&mut self, host: &H, times: u32) -> Result<(), BeatFault>
        ensures outcome { BeatsAnswer (members C.eq C.byte_of C.cell_of) (H.meaning host.now) times
            result (board self.old) (board self.new) }
        ensures same { self.new.cells.ghost_name ≡ self.old.cells.ghost_name }
    {
        let mut laid = self.standing().ok_or(BeatFault::Bare)?;
        if times > MAX_AGE - laid.age {
            return Err(BeatFault::Age);
        }
        many_beats(host, self.cells, laid.shape(), times);
        vote_often(&mut laid.shadow, times);
        laid.age += times;
        self.laid = Some(laid);
        Ok(())
    }

    pub(crate) fn try_read(&self, out: &mut [u8]) -> Result<(), ReadFault>
        ensures { Answers (members C.eq C.byte_of C.cell_of) read_fault (Read out.old out.new) result (board self.now) (board self.now) }
    {
        let laid = self.standing().ok_or(ReadFault::Bare)?;
        if out.len() < laid.planes {
            return Err(ReadFault::Output);
        }
        let shape = laid.shape();
        if let Some(plane) = first_split(self.cells, shape) {
            return Err(ReadFault::Majority { plane });
        }
        write_reading(self.cells, shape, out);
        Ok(())
    }

    pub(crate) fn try_map(&self, out: &mut [u16]) -> Result<(), MapFault>
        ensures { Answers (members C.eq C.byte_of C.cell_of) map_fault (Map out.old out.new) result (board self.now) (board self.now) }
    {
        let laid = self.standing().ok_or(MapFault::Bare)?;
        let shape = laid.shape();
        if out.len() < shape.area() {
            return Err(MapFault::Output);
        }
        write_map(self.cells, shape, out);
        Ok(())
    }

    pub(crate) fn try_shadow(&self, out: &mut [u64]) -> Result<(), ShadowFault>
        ensures { Answers (members C.eq C.byte_of C.cell_of) shadow_fault (Show out.old out.new) result (board self.now) (board self.now) }
    {
        let laid = self.standing().ok_or(ShadowFault::Bare)?;
        laid.shadow.write(out)?;
        Ok(())
    }
}

// So many votes take less time than to see whether one leaves a shadow as it is.
const UNSEEN: u32 = 2;

// Votes a shadow as often as told. Once a vote leaves it as it is, so do all that follow.
fn vote_often(shadow: &mut Shadow, times: u32)
    ensures { VotedBy times shadow.old shadow.new }
{
    let first = times.min(UNSEEN);
    for _ in 0..first {
        shadow.vote();
    }
    for _ in first..times {
        let before = *shadow;
        shadow.vote();
        if *shadow == before {
            return;
        }
    }
}
