// The report of a plate.
ghost use Rattle.plate.specs.Plates.{board, members};
ghost use Rattle.reports.specs.ReportCall.{ReportAnswers};
ghost use Rattle.reports.specs.Session.{ReportGoesOn};
ghost use Rattle.reports.specs.TapeCall.{TapeAnswers};

use crate::fault::ReportFault;
use crate::page::page;
use crate::text::Text;
use plate::fault::ReadFault;
use plate::laid::MAX_PLANES;
use plate::laws::always_heals;
use plate::plate::Plate;
use toom::kind::Kind;
use toom::shadow::MAX_SIDE;

// The bytes of the longest report, which an output must have.
pub const REPORT_BYTES: usize = 12_396;

// Writes the report at the front of the output, and answers its length.
pub fn report<C: Kind>(plate: &Plate<'_, C>, out: &mut [u8]) -> Result<usize, ReportFault>
    ensures outcome { ReportAnswers (members C.eq C.byte_of C.cell_of) result (board plate.now) out.old out.new }
    ensures heals { ReportGoesOn (members C.eq C.byte_of C.cell_of) result (board plate.now) out.old out.new }
{
    always_heals::<C>();
    try_report(plate, out)
}

// Asks its questions and the plate in order, and only then writes.
fn try_report<C: Kind>(plate: &Plate<'_, C>, out: &mut [u8]) -> Result<usize, ReportFault>
    ensures { ReportAnswers (members C.eq C.byte_of C.cell_of) result (board plate.now) out.old out.new }
{
    let laid = plate.standing().ok_or(ReportFault::Bare)?;
    let side = laid.shadow.side();
    if out.len() < REPORT_BYTES {
        return Err(ReportFault::Output);
    }
    let mut hurts = [0; MAX_SIDE * MAX_SIDE];
    plate.map(&mut hurts)?;
    let mut tape = [0; MAX_PLANES];
    let reading = read_tape(plate, &mut tape[..laid.planes])?;
    let mut text = Text::new(out);
    page(&mut text, &laid, &hurts[..side * side], reading);
    Ok(text.len())
}

// The reading, in `tape`, or the first plane that has no majority: that is no fault of a report, so no `From` says what becomes of the read's faults.
fn read_tape<'a, C: Kind>(
    plate: &Plate<'_, C>,
    tape: &'a mut [u8],
) -> Result<Result<&'a [u8], usize>, ReportFault>
    ensures { TapeAnswers (members C.eq C.byte_of C.cell_of) result (board plate.now) tape.old }
{
    match plate.read(tape) {
        Ok(()) => Ok(Ok(tape)),
        Err(ReadFault::Majority { plane }) => Ok(Err(plane)),
        Err(ReadFault::Bare) => Err(ReportFault::Bare),
        Err(ReadFault::Output) => Err(ReportFault::Output),
    }
}
