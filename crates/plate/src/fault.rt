// Why a call on a plate is refused.
ghost use Rattle.std.specs.Prelude.{◌≡◌};
ghost use Rattle.plate.specs.declared.fault.ShadowFault.TheVariants.{Output};
ghost use Rattle.plate.specs.declared.fault.StrikeFault.TheVariants.{Place};

use toom::shadow::calls::{OffTorus, TooShort};

#[derive(Clone, Copy, PartialEq, Eq, Debug)]
pub enum LayFault {
    // Not 1 to 4,096 planes.
    Planes,
    // Not a side of 2 to 64.
    Side,
    // The tape has not one byte for each plane.
    Tape,
    // The memory is too short.
    Memory,
    // The byte at this index, from 0, names no cell.
    Byte { index: usize },
}

#[derive(Clone, Copy, PartialEq, Eq, Debug)]
pub enum StrikeFault {
    // The plate is not laid.
    Bare,
    // The plate has no such plane.
    Plane,
    // The place is off the torus.
    Place,
    // The byte names no cell.
    Byte,
}

#[derive(Clone, Copy, PartialEq, Eq, Debug)]
pub enum BeatFault {
    Bare,
    // The plate has its greatest age.
    Age,
}

#[derive(Clone, Copy, PartialEq, Eq, Debug)]
pub enum ReadFault {
    Bare,
    // The output is too short.
    Output,
    // This plane, from 0, has no majority.
    Majority { plane: usize },
}

// The cases of a map and of a shadow are alike, but a call's fault type settles the word of its refusal: one type for both would have to be told
// the word wherever it is used.
#[derive(Clone, Copy, PartialEq, Eq, Debug)]
pub enum MapFault {
    Bare,
    Output,
}

#[derive(Clone, Copy, PartialEq, Eq, Debug)]
pub enum ShadowFault {
    Bare,
    Output,
}

impl From<OffTorus> for StrikeFault {
    ghost from_gives = { λ _ r. r ≡ Place };

    fn from(_fault: OffTorus) -> StrikeFault {
        StrikeFault::Place
    }
}

impl From<TooShort> for ShadowFault {
    ghost from_gives = { λ _ r. r ≡ Output };

    fn from(_fault: TooShort) -> ShadowFault {
        ShadowFault::Output
    }
}
