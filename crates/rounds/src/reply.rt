// The reply to a round file: its report, or the line of its refusal.
ghost use Rattle.std.specs.Prelude.{◌≤◌, length, IfOk};
ghost use Rattle.plate.specs.Plates.{members};
ghost use Rattle.rounds.specs.PlayCall.{entrant};
ghost use Rattle.rounds.specs.ReplyCall.{Replies};

use crate::entry::Entry;
use crate::fault::RefusedFault;
use crate::play::play;
use crate::refusal::Refusal;
use crate::refused::refused;
use toom::kind::Kind;

// Answers the length written. `within` holds the answer against the output, so no type of either could say it.
pub fn reply<C: Kind, H: Entry<C>>(
    memory: &mut [C],
    file: &[u8],
    out: &mut [u8],
) -> Result<usize, RefusedFault>
    ensures outcome { Replies (members C.eq C.byte_of C.cell_of) (entrant H.kind H.questions H.is_in H.Host.meaning) file.now result memory.old memory.new out.old out.new }
    ensures within { IfOk result (λ n. n ≤ length out.new) }
{
    // Not by `or_else`: after it nothing is known of what its closure wrote to `out`.
    match play::<C, H>(memory, file, out) {
        Ok(len) => Ok(len),
        Err(fault) => refused(Refusal::from(fault), out),
    }
}
