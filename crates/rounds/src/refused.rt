// The line of a refusal.
ghost use Rattle.std.specs.Prelude.{◌≡◌};
ghost use Rattle.rounds.specs.RefusedCall.{RefusedAnswers, refused_line};
ghost use Rattle.rounds.specs.Told.{told};
ghost use Rattle.reports.specs.Text.{Appends, Fits};

use crate::fault::RefusedFault;
use crate::refusal::Refusal;
use reports::text::Text;

// An output that holds every such line.
pub const REFUSED_BYTES: usize = 64;

// By hand: of `write!` no contract says that it succeeds where there is room.
fn refused_line(text: &mut Text<'_>, refusal: Refusal)
    requires { Fits text.old (refused_line (told refusal)) }
    ensures { Appends text.old (refused_line (told refusal)) text.new }
{
    text.push_str("refused ");
    text.push_decimal(refusal.number as usize);
    text.push_str(" ");
    text.push_str(refusal.word.text());
    text.push_str(" ");
    text.push_decimal(refusal.place);
    text.push(b'\n');
}

// Writes `refused`, number, word and place at the front of the output, and answers the length of that line.
pub fn refused(refusal: Refusal, out: &mut [u8]) -> Result<usize, RefusedFault>
    ensures { RefusedAnswers (told refusal) result out.old out.new }
{
    if out.len() < REFUSED_BYTES {
        return Err(RefusedFault::Output);
    }
    let mut text = Text::new(out);
    refused_line(&mut text, refusal);
    Ok(text.len())
}
