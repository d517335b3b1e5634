// The run: the strikes of a script among the beats of one host. `same` says that the plate's memory is still the one that was lent: of a plate
// before and after, so that no field of it could say it. Host, script and beats are the caller's, and are handed on as they came.
ghost use Rattle.std.specs.Prelude.{◌≡◌, None, Some, MatchResult};
ghost use Rattle.plate.specs.BeatsCall.{beats_questions};
ghost use Rattle.plate.specs.Faults.{beat_fault};
ghost use Rattle.plate.specs.Leads.{Leads, beats_alone};
ghost use Rattle.plate.specs.Plates.{board, members};
ghost use Rattle.runs.specs.RunCall.{calls_of_run, run_questions};
ghost use Rattle.runs.specs.Runs.{RunAnswers, RunGoesOn};

use crate::checks::check_run;
use crate::fault::RunFault;
use crate::script::Script;
use hosts::host::Host;
use plate::fault::BeatFault;
use plate::laws::always_heals;
use plate::plate::Plate;
use toom::kind::Kind;

// The beats before a strike: none where it comes at once after another, and then nothing is asked, since of a script's strikes many may do so.
fn beat_on<C: Kind, H: Host<C>>(
    plate: &mut Plate<'_, C>,
    host: &H,
    times: u32,
) -> Result<(), BeatFault>
    ensures outcome { MatchResult result
        (λ _. Leads (members C.eq C.byte_of C.cell_of) (beats_alone (H.meaning host.now) times) (board plate.old) (board plate.new))
        (λ e. beats_questions (board plate.old) times ≡ Some (beat_fault e)) }
    ensures same { plate.new.cells.ghost_name ≡ plate.old.cells.ghost_name }
{
    if times == 0 {
        return Ok(());
    }
    plate.beats(host, times)
}

// The strikes and beats of a run whose questions have been asked.
fn play<C: Kind, H: Host<C>>(
    plate: &mut Plate<'_, C>,
    host: &H,
    script: &[u8],
    beats: u32,
) -> Result<(), RunFault>
    requires { run_questions C.cell_of (board plate.old) beats script.now ≡ None }
    ensures outcome { MatchResult result (λ _. Leads (members C.eq C.byte_of C.cell_of) (calls_of_run (H.meaning host.now) script.now beats) (board plate.old) (board plate.new)) (λ _. ⊥) }
    ensures same { plate.new.cells.ghost_name ≡ plate.old.cells.ghost_name }
{
    let mut done = 0;
    for (index, record) in Script::new(script).enumerate() {
        beat_on(plate, host, record.number - done)?;
        done = record.number;
        plate
            .strike(record.strike)
            .map_err(|fault| RunFault::Strike {
                record: index,
                fault,
            })?;
    }
    plate.beats(host, beats - done)?;
    Ok(())
}

// Asks all its questions, and only then strikes and beats.
fn try_run<C: Kind, H: Host<C>>(
    plate: &mut Plate<'_, C>,
    host: &H,
    script: &[u8],
    beats: u32,
) -> Result<(), RunFault>
    ensures outcome { RunAnswers (members C.eq C.byte_of C.cell_of) (H.meaning host.now) script.now beats result (board plate.old) (board plate.new) }
    ensures same { plate.new.cells.ghost_name ≡ plate.old.cells.ghost_name }
{
    let laid = plate.standing().ok_or(RunFault::Bare)?;
    check_run::<C>(laid.planes, laid.shadow.side(), laid.age, beats, script)?;
    play(plate, host, script, beats)
}

// Beats as often as told, and strikes on the way: a record's number says how many of the beats come before it, and where several have the same
// number, the script's order is kept.
pub fn run<C: Kind, H: Host<C>>(
    plate: &mut Plate<'_, C>,
    host: &H,
    script: &[u8],
    beats: u32,
) -> Result<(), RunFault>
    ensures outcome { RunAnswers (members C.eq C.byte_of C.cell_of) (H.meaning host.now) script.now beats result (board plate.old) (board plate.new) }
    ensures heals { RunGoesOn (members C.eq C.byte_of C.cell_of) (H.meaning host.now) script.now beats result (board plate.old) (board plate.new) }
    ensures same { plate.new.cells.ghost_name ≡ plate.old.cells.ghost_name }
{
    always_heals::<C>();
    try_run(plate, host, script, beats)
}
