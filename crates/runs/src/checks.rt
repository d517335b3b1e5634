// The questions of a run that need no plate: they are of the shape, the age and the kind. The shape is plain numbers, which may be none.
ghost use Rattle.std.specs.Prelude.{◌≡◌, Some, None, MatchResult};
ghost use Rattle.runs.specs.RunCall.{record_asked, script_questions, shape_questions};
ghost use Rattle.runs.specs.RunFaults.{run_fault};

use crate::fault::RunFault;
use crate::record::Record;
use crate::script::{RECORD_BYTES, Script};
use plate::checks::check_strike;
use plate::laid::MAX_AGE;
use toom::kind::Kind;

// The bytes of the longest script: 8,191 records, so that its length fits in 16 bits.
pub const MAX_SCRIPT: usize = 65_528;

// What the records of a script are held against: the shape of the plate, and the beats of the run.
#[derive(Clone, Copy)]
struct Bounds {
    planes: usize,
    side: usize,
    beats: u32,
}

impl Bounds {
    // Asks the questions of one record. The record just before it has the number `before`.
    fn check_record<C: Kind>(
        self,
        before: u32,
        index: usize,
        record: Record,
    ) -> Result<(), RunFault>
        ensures { MatchResult result (λ _. record_asked C.cell_of self.planes self.side self.beats before index «record» ≡ None) (λ e. record_asked C.cell_of self.planes self.side self.beats before index «record» ≡ Some (run_fault e)) }
    {
        if record.spare != 0 {
            return Err(RunFault::Padding { record: index });
        }
        if record.number > self.beats {
            return Err(RunFault::Number { record: index });
        }
        if record.number < before {
            return Err(RunFault::Order { record: index });
        }
        check_strike::<C>(self.planes, self.side, record.strike).map_err(
            |fault| RunFault::Strike {
                record: index,
                fault,
            },
        )?;
        Ok(())
    }

    // Asks the questions of a script: of its length, then of each record.
    fn check_script<C: Kind>(self, script: &[u8]) -> Result<(), RunFault>
        ensures { MatchResult result (λ _. script_questions C.cell_of self.planes self.side self.beats script.now ≡ None) (λ e. script_questions C.cell_of self.planes self.side self.beats script.now ≡ Some (run_fault e)) }
    {
        if script.len() % RECORD_BYTES != 0 || script.len() > MAX_SCRIPT {
            return Err(RunFault::Script);
        }
        let mut before = 0;
        for (index, record) in Script::new(script).enumerate() {
            self.check_record::<C>(before, index, record)?;
            before = record.number;
        }
        Ok(())
    }
}

// The questions of a run on a plate of this shape and age.
pub fn check_run<C: Kind>(
    planes: usize,
    side: usize,
    age: u32,
    beats: u32,
    script: &[u8],
) -> Result<(), RunFault>
    ensures { MatchResult result (λ _. shape_questions C.cell_of planes side age beats script.now ≡ None) (λ e. shape_questions C.cell_of planes side age beats script.now ≡ Some (run_fault e)) }
{
    if age > MAX_AGE || beats > MAX_AGE - age {
        return Err(RunFault::Age);
    }
    let bounds = Bounds {
        planes,
        side,
        beats,
    };
    bounds.check_script::<C>(script)
}
