// The laws of the machine host and of its file, each the contract of a function that does nothing.
ghost use Rattle.std.specs.Prelude.{◌≡◌, Decides};
ghost use Rattle.hosts.specs.MachineFile.{OneFileEach, OneMachineEach};
ghost use Rattle.hosts.specs.Turing.{StepsAsTuring};

use crate::entry::{Entry, Motion};
use crate::machine::fault::MachineFault;

// A ring of cells with one live head, stepped by the machine host, makes one step of the Turing machine.
pub fn steps_as_turing()
    ensures { StepsAsTuring }
{}

// Each machine has its one file, which is in order and gives it; a file gives at most one machine.
pub fn files_are_machines()
    ensures files { OneFileEach }
    ensures machines { OneMachineEach }
{}

// `==` of motions, entries and faults decides equality.
pub fn sameness_is_equality()
    ensures motions { (x y : Motion) → Decides (⟦<Motion as PartialEq>⟧.eq x y) (x ≡ y) }
    ensures entries { (x y : Entry) → Decides (⟦<Entry as PartialEq>⟧.eq x y) (x ≡ y) }
    ensures faults { (x y : MachineFault) → Decides (⟦<MachineFault as PartialEq>⟧.eq x y) (x ≡ y) }
{}
