// That the outcome of a run pins its end, as the contract of a function that does nothing.
ghost use Rattle.std.specs.Prelude.{◌≡◌, Decides};
ghost use Rattle.plate.specs.Plates.{members};
ghost use Rattle.runs.specs.RunPins.{RunsPin, RunFaultsPin};

use crate::fault::RunFault;
use crate::record::Record;
use plate::laws::outcomes_pin;
use toom::kind::Kind;

// The outcome of a run settles its end: the answer, every cell and the state.
pub fn runs_pin<C: Kind>()
    ensures ends { RunsPin (members C.eq C.byte_of C.cell_of) }
    ensures faults { RunFaultsPin }
{
    outcomes_pin::<C>();
}

// `==` of records and of faults decides equality.
pub fn sameness_is_equality()
    ensures records { (x y : Record) → Decides (⟦<Record as PartialEq>⟧.eq x y) (x ≡ y) }
    ensures faults { (x y : RunFault) → Decides (⟦<RunFault as PartialEq>⟧.eq x y) (x ≡ y) }
{}
