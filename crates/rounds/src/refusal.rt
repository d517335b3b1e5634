// What a fault is told as: the number of the question that failed, a word and a place.
ghost use Rattle.std.specs.Prelude.{◌≡◌};
ghost use Rattle.hosts.specs.MachineFault.{machine_fault};
ghost use Rattle.plate.specs.Faults.{lay_fault, strike_fault, beat_fault, read_fault, map_fault, shadow_fault};
ghost use Rattle.runs.specs.RunFaults.{run_fault};
ghost use Rattle.reports.specs.ReportCall.{report_fault};
ghost use Rattle.rounds.specs.Hosts.{host_fault};
ghost use Rattle.rounds.specs.PlayCall.{play_fault};
ghost use Rattle.rounds.specs.RefusedCall.{refused_fault};
ghost use Rattle.rounds.specs.RoundFile.{round_fault};
ghost use Rattle.rounds.specs.Told.{told, word_text};

use crate::fault::{HostFault, PlayFault, RefusedFault, RoundFault};
use hosts::machine::fault::MachineFault;
use plate::fault::{BeatFault, LayFault, MapFault, ReadFault, ShadowFault, StrikeFault};
use reports::fault::ReportFault;
use runs::fault::RunFault;

// Whose question it was: a call's, or that of a round file or its host.
#[derive(Clone, Copy, PartialEq, Eq, Debug)]
pub enum Word {
    Lay,
    Strike,
    Beat,
    Run,
    Read,
    Map,
    Shadow,
    Report,
    Host,
    Round,
    Refused,
}

impl Word {
    // Not by `Display`: the line of a refusal is written without `write!`, which by its contract may fail.
    pub fn text(self) -> &'static str
        ensures { result.now ≡ word_text self }
    {
        match self {
            Word::Lay => "lay",
            Word::Strike => "strike",
            Word::Beat => "beat",
            Word::Run => "run",
            Word::Read => "read",
            Word::Map => "map",
            Word::Shadow => "shadow",
            Word::Report => "report",
            Word::Host => "host",
            Word::Round => "round",
            Word::Refused => "refused",
        }
    }
}

// Number and place as the line of a refusal has them, where the place is 0 if none is named.
#[derive(Clone, Copy, PartialEq, Eq, Debug)]
pub struct Refusal {
    pub number: u8,
    pub word: Word,
    pub place: usize,
}

impl Refusal {
    // Names no place.
    fn new(number: u8, word: Word) -> Refusal
        ensures { result ≡ record { number = number; word = word; place = 0 } }
    {
        Refusal {
            number,
            word,
            place: 0,
        }
    }

    fn at(self, place: usize) -> Refusal
        ensures { result ≡ record self { place = place } }
    {
        Refusal { place, ..self }
    }
}

impl From<LayFault> for Refusal {
    ghost from_gives = { λ fault refusal. told refusal ≡ lay_fault fault };

    fn from(fault: LayFault) -> Refusal {
        match fault {
            LayFault::Planes => Refusal::new(1, Word::Lay),
            LayFault::Side => Refusal::new(2, Word::Lay),
            LayFault::Tape => Refusal::new(3, Word::Lay),
            LayFault::Memory => Refusal::new(4, Word::Lay),
            LayFault::Byte { index } => Refusal::new(5, Word::Lay).at(index),
        }
    }
}

impl From<StrikeFault> for Refusal {
    ghost from_gives = { λ fault refusal. told refusal ≡ strike_fault fault };

    fn from(fault: StrikeFault) -> Refusal {
        match fault {
            StrikeFault::Bare => Refusal::new(6, Word::Strike),
            StrikeFault::Plane => Refusal::new(7, Word::Strike),
            StrikeFault::Place => Refusal::new(8, Word::Strike),
            StrikeFault::Byte => Refusal::new(9, Word::Strike),
        }
    }
}

impl From<BeatFault> for Refusal {
    ghost from_gives = { λ fault refusal. told refusal ≡ beat_fault fault };

    fn from(fault: BeatFault) -> Refusal {
        match fault {
            BeatFault::Bare => Refusal::new(6, Word::Beat),
            BeatFault::Age => Refusal::new(10, Word::Beat),
        }
    }
}

// A fault of a record's strike keeps its number and its word, and gets the record's index for its place.
impl From<RunFault> for Refusal {
    ghost from_gives = { λ fault refusal. told refusal ≡ run_fault fault };

    fn from(fault: RunFault) -> Refusal {
        match fault {
            RunFault::Bare => Refusal::new(6, Word::Run),
            RunFault::Age => Refusal::new(10, Word::Run),
            RunFault::Script => Refusal::new(11, Word::Run),
            RunFault::Padding { record } => Refusal::new(12, Word::Run).at(record),
            RunFault::Number { record } => Refusal::new(13, Word::Run).at(record),
            RunFault::Order { record } => Refusal::new(14, Word::Run).at(record),
            RunFault::Strike { record, fault } => Refusal::from(fault).at(record),
        }
    }
}

impl From<ReadFault> for Refusal {
    ghost from_gives = { λ fault refusal. told refusal ≡ read_fault fault };

    fn from(fault: ReadFault) -> Refusal {
        match fault {
            ReadFault::Bare => Refusal::new(6, Word::Read),
            ReadFault::Output => Refusal::new(15, Word::Read),
            ReadFault::Majority { plane } => Refusal::new(16, Word::Read).at(plane),
        }
    }
}

impl From<MapFault> for Refusal {
    ghost from_gives = { λ fault refusal. told refusal ≡ map_fault fault };

    fn from(fault: MapFault) -> Refusal {
        match fault {
            MapFault::Bare => Refusal::new(6, Word::Map),
            MapFault::Output => Refusal::new(15, Word::Map),
        }
    }
}

impl From<ShadowFault> for Refusal {
    ghost from_gives = { λ fault refusal. told refusal ≡ shadow_fault fault };

    fn from(fault: ShadowFault) -> Refusal {
        match fault {
            ShadowFault::Bare => Refusal::new(6, Word::Shadow),
            ShadowFault::Output => Refusal::new(15, Word::Shadow),
        }
    }
}

impl From<ReportFault> for Refusal {
    ghost from_gives = { λ fault refusal. told refusal ≡ report_fault fault };

    fn from(fault: ReportFault) -> Refusal {
        match fault {
            ReportFault::Bare => Refusal::new(6, Word::Report),
            ReportFault::Output => Refusal::new(15, Word::Report),
        }
    }
}

impl From<MachineFault> for Refusal {
    ghost from_gives = { λ fault refusal. told refusal ≡ machine_fault fault };

    fn from(fault: MachineFault) -> Refusal {
        match fault {
            MachineFault::Header => Refusal::new(17, Word::Host),
            MachineFault::Length => Refusal::new(18, Word::Host),
            MachineFault::Next { entry } => Refusal::new(19, Word::Host).at(entry),
            MachineFault::Symbol { entry } => Refusal::new(20, Word::Host).at(entry),
            MachineFault::Move { entry } => Refusal::new(21, Word::Host).at(entry),
            MachineFault::Padding { entry } => Refusal::new(22, Word::Host).at(entry),
        }
    }
}

impl From<HostFault> for Refusal {
    ghost from_gives = { λ fault refusal. told refusal ≡ host_fault fault };

    fn from(fault: HostFault) -> Refusal {
        match fault {
            HostFault::Rule => Refusal::new(27, Word::Host),
            HostFault::Machine(fault) => Refusal::from(fault),
        }
    }
}

impl From<RoundFault> for Refusal {
    ghost from_gives = { λ fault refusal. told refusal ≡ round_fault fault };

    fn from(fault: RoundFault) -> Refusal {
        match fault {
            RoundFault::Header => Refusal::new(23, Word::Round),
            RoundFault::Kind => Refusal::new(24, Word::Round),
            RoundFault::Length => Refusal::new(25, Word::Round),
            RoundFault::Copies => Refusal::new(26, Word::Round),
        }
    }
}

impl From<RefusedFault> for Refusal {
    ghost from_gives = { λ fault refusal. told refusal ≡ refused_fault fault };

    fn from(fault: RefusedFault) -> Refusal {
        match fault {
            RefusedFault::Output => Refusal::new(15, Word::Refused),
        }
    }
}

impl From<PlayFault> for Refusal {
    ghost from_gives = { λ fault refusal. told refusal ≡ play_fault fault };

    fn from(fault: PlayFault) -> Refusal {
        match fault {
            PlayFault::Round(fault) => Refusal::from(fault),
            PlayFault::Report(fault) => Refusal::from(fault),
            PlayFault::Host(fault) => Refusal::from(fault),
            PlayFault::Lay(fault) => Refusal::from(fault),
            PlayFault::Run(fault) => Refusal::from(fault),
        }
    }
}
