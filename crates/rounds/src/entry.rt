// A host that a round file can enter: the kind of its cells, and how it is read.
ghost use Rattle.std.specs.Prelude.{◌≡◌, ℕ, List, Some, None, Option, MatchResult};
ghost use Rattle.hosts.specs.MachineFile.{machine_questions, MachineIn};
ghost use Rattle.hosts.specs.Refusal.{Refusal};
ghost use Rattle.rounds.specs.declared.file_kind.FileKind.{FileKind};
ghost use Rattle.rounds.specs.declared.file_kind.FileKind.TheVariants.{Bits, MachineCells};
ghost use Rattle.rounds.specs.Hosts.{host_fault, rule_questions, RuleIn};
ghost use Rattle.std.proofs.Common.{rules};
ghost use Rattle.hosts.proofs.Machines.{one_machine_each};

use crate::fault::HostFault;
use crate::file_kind::FileKind;
use hosts::elementary::Elementary;
use hosts::host::Host;
use hosts::machine::Machine;
use toom::bit::Bit;
use toom::kind::Kind;
use toom::machine_cell::MachineCell;

pub trait Entry<C>: Host<C> + Copy {
    // The kind of cell that its round files say.
    ghost kind: { FileKind };

    // The first refusal that its bytes get, if any.
    ghost questions: { List ℕ → Option Refusal };

    // That it is the host of these bytes.
    ghost is_in: { List ℕ → Self → Type 0 };

    fn kind() -> FileKind
        ensures { result ≡ kind };

    fn read(bytes: &[u8]) -> Result<Self, HostFault>
        ensures { MatchResult result (λ x. (questions bytes.now ≡ None) × is_in bytes.now x) (λ e. questions bytes.now ≡ Some (host_fault e)) };

    // Bytes give one host at most.
    ghost once: { (bytes : List ℕ) (x y : Self) → is_in bytes x → is_in bytes y → x ≡ y };
}

// Kind 0: one byte, Wolfram's number of the rule.
impl Entry<Bit> for Elementary {
    ghost kind = { Bits };

    ghost questions = { rule_questions };

    ghost is_in = { RuleIn };

    ghost once = { Prim.search rules };

    fn kind() -> FileKind {
        FileKind::Bits
    }

    fn read(bytes: &[u8]) -> Result<Elementary, HostFault> {
        let [rule] = *bytes else {
            return Err(HostFault::Rule);
        };
        Ok(Elementary { rule })
    }
}

// Kind 1: a machine file.
impl Entry<MachineCell> for Machine {
    ghost kind = { MachineCells };

    ghost questions = { machine_questions };

    ghost is_in = { MachineIn };

    ghost once = { one_machine_each };

    fn kind() -> FileKind {
        FileKind::MachineCells
    }

    fn read(bytes: &[u8]) -> Result<Machine, HostFault> {
        Ok(Machine::read(bytes)?)
    }
}
