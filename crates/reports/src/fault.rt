// Why a report is refused.
ghost use Rattle.std.specs.Prelude.{◌≡◌};
ghost use Rattle.reports.specs.Faults.{from_map};

use plate::fault::MapFault;

// The cases are those of a map, but a call's fault type settles the word of its refusal: one type for both would have to be told the word
// wherever it is used.
#[derive(Clone, Copy, PartialEq, Eq, Debug)]
pub enum ReportFault {
    // The plate is not laid.
    Bare,
    // The output is too short.
    Output,
}

impl From<MapFault> for ReportFault {
    ghost from_gives = { λ e r. r ≡ from_map e };

    fn from(fault: MapFault) -> ReportFault {
        match fault {
            MapFault::Bare => ReportFault::Bare,
            MapFault::Output => ReportFault::Output,
        }
    }
}
