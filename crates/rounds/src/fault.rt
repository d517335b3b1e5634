// Why a round is refused. Conversions are by hand, and not by `thiserror`: clauses name the fault that a `?` makes.
ghost use Rattle.std.specs.Prelude.{◌≡◌};
ghost use Rattle.rounds.specs.declared.fault.HostFault.TheVariants.{Machine};
ghost use Rattle.rounds.specs.declared.fault.PlayFault.TheVariants as plays;

use hosts::machine::fault::MachineFault;
use plate::fault::LayFault;
use reports::fault::ReportFault;
use runs::fault::RunFault;

// What is wrong with a round file, before its host, its tape and its script are looked at.
#[derive(Clone, Copy, PartialEq, Eq, Debug)]
pub enum RoundFault {
    // It ends within its header.
    Header,
    // It is of another kind of cell.
    Kind,
    // It is not as long as its header says, or too long.
    Length,
    // It has too many copies.
    Copies,
}

// What is wrong with the host of a round.
#[derive(Clone, Copy, PartialEq, Eq, Debug)]
pub enum HostFault {
    // A bit rule that is not one byte long.
    Rule,
    Machine(MachineFault),
}

impl From<MachineFault> for HostFault {
    ghost from_gives = { λ e r. r ≡ Machine e };

    fn from(fault: MachineFault) -> HostFault {
        HostFault::Machine(fault)
    }
}

// Why a refusal is not written.
#[derive(Clone, Copy, PartialEq, Eq, Debug)]
pub enum RefusedFault {
    // The output is too short.
    Output,
}

// Why a round is not played: the file's fault, or that of its host, or of the call that it would have made.
#[derive(Clone, Copy, PartialEq, Eq, Debug)]
pub enum PlayFault {
    Round(RoundFault),
    Report(ReportFault),
    Host(HostFault),
    Lay(LayFault),
    Run(RunFault),
}

impl From<RoundFault> for PlayFault {
    ghost from_gives = { λ e r. r ≡ plays.Round e };

    fn from(fault: RoundFault) -> PlayFault {
        PlayFault::Round(fault)
    }
}

impl From<ReportFault> for PlayFault {
    ghost from_gives = { λ e r. r ≡ plays.Report e };

    fn from(fault: ReportFault) -> PlayFault {
        PlayFault::Report(fault)
    }
}

impl From<HostFault> for PlayFault {
    ghost from_gives = { λ e r. r ≡ plays.Host e };

    fn from(fault: HostFault) -> PlayFault {
        PlayFault::Host(fault)
    }
}

impl From<LayFault> for PlayFault {
    ghost from_gives = { λ e r. r ≡ plays.Lay e };

    fn from(fault: LayFault) -> PlayFault {
        PlayFault::Lay(fault)
    }
}

impl From<RunFault> for PlayFault {
    ghost from_gives = { λ e r. r ≡ plays.Run e };

    fn from(fault: RunFault) -> PlayFault {
        PlayFault::Run(fault)
    }
}
