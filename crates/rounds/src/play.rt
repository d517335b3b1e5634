// Playing a round: one text for every kind of cell.
ghost use Rattle.std.specs.Prelude.{◌≡◌, ◌≤◌, length, Some, None, MatchResult};
ghost use Rattle.plate.specs.LayCall.{lay_questions};
ghost use Rattle.plate.specs.Plates.{members};
ghost use Rattle.runs.specs.RunCall.{shape_questions};
ghost use Rattle.reports.specs.ReportCall.{report_bytes};
ghost use Rattle.rounds.specs.PlayCall.{Performs, PlayAnswers, PlayHeals, entrant, play_fault, play_questions};
ghost use Rattle.rounds.specs.RoundFile.{RoundIn, host_in};

use crate::entry::Entry;
use crate::fault::PlayFault;
use crate::round::Round;
use plate::checks::check_lay;
use plate::laws::always_heals;
use plate::plate::Plate;
use reports::fault::ReportFault;
use reports::report::{REPORT_BYTES, report};
use runs::checks::check_run;
use runs::run::run;
use toom::kind::Kind;

// The round of a file and its host, or the first question that fails. `memory` and `room` are the lengths of memory and output.
fn admit<'a, C: Kind, H: Entry<C>>(
    file: &'a [u8],
    memory: usize,
    room: usize,
) -> Result<(Round<'a>, H), PlayFault>
    ensures { MatchResult result (λ x. (play_questions (members C.eq C.byte_of C.cell_of) (entrant H.kind H.questions H.is_in H.Host.meaning) file.now memory room ≡ None) × RoundIn file.now x.0 × H.is_in (host_in file.now) x.1) (λ e. play_questions (members C.eq C.byte_of C.cell_of) (entrant H.kind H.questions H.is_in H.Host.meaning) file.now memory room ≡ Some (play_fault e)) }
{
    let round = Round::read(H::kind(), file)?;
    if room < REPORT_BYTES {
        return Err(PlayFault::Report(ReportFault::Output));
    }
    let host = H::read(round.host)?;
    check_lay::<C>(round.planes, round.side, round.tape, memory)?;
    check_run::<C>(round.planes, round.side, 0, round.beats, round.script)?;
    Ok((round, host))
}

// Lays, runs and reports a round whose questions have been asked.
fn perform<C: Kind, H: Entry<C>>(
    memory: &mut [C],
    round: Round<'_>,
    host: &H,
    out: &mut [u8],
) -> Result<usize, PlayFault>
    requires lays { lay_questions C.cell_of round.planes round.side round.tape.now (length memory.old) ≡ None }
    requires runs { shape_questions C.cell_of round.planes round.side 0 round.beats round.script.now ≡ None }
    requires room { report_bytes ≤ length out.old }
    ensures { MatchResult result (λ n. Performs (members C.eq C.byte_of C.cell_of) (H.Host.meaning host.now) round.entry.planes round.entry.side round.entry.beats round.entry.tape.now round.entry.script.now n memory.old memory.new out.old out.new) (λ _. ⊥) }
{
    let mut plate = Plate::new(memory);
    plate.lay(round.planes, round.side, round.tape)?;
    run(&mut plate, host, round.script, round.beats)?;
    Ok(report(&plate, out)?)
}

// Plays the round of a file over this memory, and writes its report at the front of the output. Answers the report's length. All questions
// come first: a refused play changes neither memory nor output.
pub fn play<C: Kind, H: Entry<C>>(
    memory: &mut [C],
    file: &[u8],
    out: &mut [u8],
) -> Result<usize, PlayFault>
    ensures outcome { PlayAnswers (members C.eq C.byte_of C.cell_of) (entrant H.kind H.questions H.is_in H.Host.meaning) file.now result memory.old memory.new out.old out.new }
    ensures heals { PlayHeals (members C.eq C.byte_of C.cell_of) (entrant H.kind H.questions H.is_in H.Host.meaning) file.now result memory.old memory.new out.old out.new }
{
    always_heals::<C>();
    let (round, host) = admit::<C, H>(file, memory.len(), out.len())?;
    perform(memory, round, &host, out)
}
