// The calls on a plate. Each does what its outcome says; and whatever history of calls reached the plate before it, with this call (of `beats`, with
// its beats) it reaches the plate after it, where the healing laws hold. `same` says of each that the memory is still the one that was lent: of a
// plate before and after, so that no field of the plate could say it.
ghost use Rattle.std.specs.Prelude.{◌≡◌, []};
ghost use Rattle.plate.specs.BeatsCall.{BeatsAnswer, BeatsGoOn};
ghost use Rattle.plate.specs.Board.{standing};
ghost use Rattle.plate.specs.Faults.{lay_fault, strike_fault, beat_fault, read_fault, map_fault, shadow_fault};
// `Strike` is the call in a clause; the struct is named by its path.
ghost use Rattle.plate.specs.History.{Lay, Strike, Beat, Read, Map, Show, Reached};
ghost use Rattle.plate.specs.Plates.{board, members, Answers, GoesOn};

use crate::fault::{BeatFault, LayFault, MapFault, ReadFault, ShadowFault, StrikeFault};
use crate::laid::Laid;
use crate::laws::always_heals;
use crate::plate::Plate;
use hosts::host::Host;
use toom::kind::Kind;

impl<'a, C: Kind> Plate<'a, C> {
    // A bare plate over these cells, none of which it touches.
    pub fn new(cells: &'a mut [C]) -> Plate<'a, C>
        ensures reached { Reached (members C.eq C.byte_of C.cell_of) [] (board result) }
        ensures cells { result.cells.now ≡ cells.old }
        ensures same { result.cells.ghost_name ≡ cells.entry.ghost_name }
    {
        Plate { cells, laid: None }
    }

    // What the plate keeps beside its cells, if it is laid: its shape, its age and its shadow.
    pub fn standing(&self) -> Option<Laid>
        ensures { result ≡ standing (board self.now) }
    {
        self.laid
            .filter(|laid| laid.shape().size() <= self.cells.len())
    }

    // Copies, voted copies and both lines become the cells of the tape's bytes; no place is marked, and the age is 0. The shape is plain numbers,
    // which may be none: that is asked.
    pub fn lay(&mut self, planes: usize, side: usize, tape: &[u8]) -> Result<(), LayFault>
        ensures outcome { Answers (members C.eq C.byte_of C.cell_of) lay_fault (Lay planes side tape.now) result (board self.old) (board self.new) }
        ensures heals { GoesOn (members C.eq C.byte_of C.cell_of) (Lay planes side tape.now) result (board self.old) (board self.new) }
        ensures same { self.new.cells.ghost_name ≡ self.old.cells.ghost_name }
    {
        always_heals::<C>();
        self.try_lay(planes, side, tape)
    }

    // One copy becomes the cell of the byte, and its place is marked in the shadow.
    pub fn strike(&mut self, strike: crate::strike::Strike) -> Result<(), StrikeFault>
        ensures outcome { Answers (members C.eq C.byte_of C.cell_of) strike_fault (Strike strike.plane strike.row strike.column strike.byte) result (board self.old) (board self.new) }
        ensures heals { GoesOn (members C.eq C.byte_of C.cell_of) (Strike strike.plane strike.row strike.column strike.byte) result (board self.old) (board self.new) }
        ensures same { self.new.cells.ghost_name ≡ self.old.cells.ghost_name }
    {
        always_heals::<C>();
        self.try_strike(strike)
    }

    // All planes are voted, then every copy and the line step by the host, and the shadow is voted.
    pub fn beat<H: Host<C>>(&mut self, host: &H) -> Result<(), BeatFault>
        ensures outcome { Answers (members C.eq C.byte_of C.cell_of) beat_fault (Beat (H.meaning host.now)) result (board self.old) (board self.new) }
        ensures heals { GoesOn (members C.eq C.byte_of C.cell_of) (Beat (H.meaning host.now)) result (board self.old) (board self.new) }
        ensures same { self.new.cells.ghost_name ≡ self.old.cells.ghost_name }
    {
        always_heals::<C>();
        self.try_beat(host)
    }

    // As many beats as told, asked for together before the first: what they leave is what so many single beats leave.
    pub fn beats<H: Host<C>>(&mut self, host: &H, times: u32) -> Result<(), BeatFault>
        ensures outcome { BeatsAnswer (members C.eq C.byte_of C.cell_of) (H.meaning host.now) times
            result (board self.old) (board self.new) }
        ensures heals { BeatsGoOn (members C.eq C.byte_of C.cell_of) (H.meaning host.now) times
            result (board self.old) (board self.new) }
        ensures same { self.new.cells.ghost_name ≡ self.old.cells.ghost_name }
    {
        always_heals::<C>();
        self.try_beats(host, times)
    }

    // The byte of the majority of each plane.
    pub fn read(&self, out: &mut [u8]) -> Result<(), ReadFault>
        ensures outcome { Answers (members C.eq C.byte_of C.cell_of) read_fault (Read out.old out.new) result (board self.now) (board self.now) }
        ensures heals { GoesOn (members C.eq C.byte_of C.cell_of) (Read out.old out.new) result (board self.now) (board self.now) }
    {
        always_heals::<C>();
        self.try_read(out)
    }

    // For each place how many copies differ from their cell of the line.
    pub fn map(&self, out: &mut [u16]) -> Result<(), MapFault>
        ensures outcome { Answers (members C.eq C.byte_of C.cell_of) map_fault (Map out.old out.new) result (board self.now) (board self.now) }
        ensures heals { GoesOn (members C.eq C.byte_of C.cell_of) (Map out.old out.new) result (board self.now) (board self.now) }
    {
        always_heals::<C>();
        self.try_map(out)
    }

    // The shadow, a word a row.
    pub fn shadow(&self, out: &mut [u64]) -> Result<(), ShadowFault>
        ensures outcome { Answers (members C.eq C.byte_of C.cell_of) shadow_fault (Show out.old out.new) result (board self.now) (board self.now) }
        ensures heals { GoesOn (members C.eq C.byte_of C.cell_of) (Show out.old out.new) result (board self.now) (board self.now) }
    {
        always_heals::<C>();
        self.try_shadow(out)
    }
}
