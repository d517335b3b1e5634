// That the outcomes of play, reply and refused pin their ends, and that ROUND_CELLS suffice, as the contracts of functions that do nothing.
ghost use Rattle.std.specs.Prelude.{◌≡◌, Decides};
ghost use Rattle.plate.specs.Plates.{members};
ghost use Rattle.rounds.specs.FileKind.{FileKindsPin};
ghost use Rattle.rounds.specs.Memory.{MemorySuffices};
ghost use Rattle.rounds.specs.PlayCall.{entrant};
ghost use Rattle.rounds.specs.PlayPins.{PlayFaultsPin, PlayPins, RefusedPins, ReplyPins, WordsPin};

use crate::entry::Entry;
use crate::fault::{HostFault, PlayFault, RefusedFault, RoundFault};
use crate::file_kind::FileKind;
use crate::refusal::{Refusal, Word};
use plate::laws::outcomes_pin;
use toom::kind::Kind;

// The outcome of a play settles its end: the answer, every cell of the memory and every byte of the output. So do those of reply and
// refused. And a kind tells its number, and what a refusal is told as tells the refusal.
pub fn rounds_pin<C: Kind, H: Entry<C>>()
    ensures play { PlayPins (members C.eq C.byte_of C.cell_of) (entrant H.kind H.questions H.is_in H.Host.meaning) }
    ensures faults { PlayFaultsPin }
    ensures reply { ReplyPins (members C.eq C.byte_of C.cell_of) (entrant H.kind H.questions H.is_in H.Host.meaning) }
    ensures refused { RefusedPins }
    ensures kinds { FileKindsPin }
    ensures words { WordsPin }
{
    outcomes_pin::<C>();
}

// No round needs more than ROUND_CELLS cells.
pub fn memory_suffices()
    ensures { MemorySuffices }
{}

// `==` of kinds, of faults, of words and of refusals decides equality.
pub fn sameness_is_equality()
    ensures kinds { (x y : FileKind) → Decides (⟦<FileKind as PartialEq>⟧.eq x y) (x ≡ y) }
    ensures round { (x y : RoundFault) → Decides (⟦<RoundFault as PartialEq>⟧.eq x y) (x ≡ y) }
    ensures host { (x y : HostFault) → Decides (⟦<HostFault as PartialEq>⟧.eq x y) (x ≡ y) }
    ensures refused { (x y : RefusedFault) → Decides (⟦<RefusedFault as PartialEq>⟧.eq x y) (x ≡ y) }
    ensures play { (x y : PlayFault) → Decides (⟦<PlayFault as PartialEq>⟧.eq x y) (x ≡ y) }
    ensures words { (x y : Word) → Decides (⟦<Word as PartialEq>⟧.eq x y) (x ≡ y) }
    ensures refusals { (x y : Refusal) → Decides (⟦<Refusal as PartialEq>⟧.eq x y) (x ≡ y) }
{}
