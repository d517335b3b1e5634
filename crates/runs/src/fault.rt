// Why a run is refused.
ghost use Rattle.std.specs.Prelude.{◌≡◌};
ghost use Rattle.runs.specs.RunFaults.{beat_in_run};

use plate::fault::{BeatFault, StrikeFault};

// `record` is the index of the record, from 0.
#[derive(Clone, Copy, PartialEq, Eq, Debug)]
pub enum RunFault {
    // The plate is not laid.
    Bare,
    // The beats would make the plate older than it can be.
    Age,
    // The script is not of whole records, or too long.
    Script,
    // The last 12 bits are not zero.
    Padding { record: usize },
    // The number is past the last beat.
    Number { record: usize },
    // The number is below that of the record before.
    Order { record: usize },
    // The strike of the record is refused, by its plane, its place or its byte.
    Strike { record: usize, fault: StrikeFault },
}

impl From<BeatFault> for RunFault {
    ghost from_gives = { λ e r. r ≡ beat_in_run e };

    fn from(fault: BeatFault) -> RunFault {
        match fault {
            BeatFault::Bare => RunFault::Bare,
            BeatFault::Age => RunFault::Age,
        }
    }
}
