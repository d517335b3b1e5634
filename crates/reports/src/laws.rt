// What holds of every report and of all calls on a plate together, as the contracts of functions that do nothing.
ghost use Rattle.std.specs.Prelude.{◌≡◌, Decides};
ghost use Rattle.plate.specs.Plates.{members};
ghost use Rattle.reports.specs.ReportPins.{ReportFaultsPin, ReportPins};
ghost use Rattle.reports.specs.Room.{ReportFits};
ghost use Rattle.reports.specs.Session.{SessionHeals};
ghost use Rattle.reports.specs.Tells.{ReportsTell};

use crate::fault::ReportFault;
use plate::laws::always_heals;
use toom::kind::Kind;
use toom::laws::marks_pin;

// No report is longer than REPORT_BYTES.
pub fn report_fits<C: Kind>()
    ensures { ReportFits (members C.eq C.byte_of C.cell_of) }
{
    marks_pin();
}

// The outcome of a report settles its end: the answer and every byte of the output.
pub fn report_pins<C: Kind>()
    ensures ends { ReportPins (members C.eq C.byte_of C.cell_of) }
    ensures faults { ReportFaultsPin }
{}

// A report tells of the faultless run: the map counts the copies that differ from it, all of them in the shadow, and while the shadow covers fewer
// than half of the places the tape is the run's.
pub fn report_tells<C: Kind>()
    ensures { ReportsTell (members C.eq C.byte_of C.cell_of) }
{
    always_heals::<C>();
}

// The healing laws hold whatever calls were made since a plate was new, runs and reports among them.
pub fn session_heals<C: Kind>()
    ensures { SessionHeals (members C.eq C.byte_of C.cell_of) }
{
    always_heals::<C>();
}

// `==` of faults decides equality.
pub fn sameness_is_equality()
    ensures faults { (x y : ReportFault) → Decides (⟦<ReportFault as PartialEq>⟧.eq x y) (x ≡ y) }
{}
