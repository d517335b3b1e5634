// The healing laws of every plate, and that each outcome pins its end, as the contracts of functions that do nothing.
ghost use Rattle.std.specs.Prelude.{◌≡◌, Decides};
ghost use Rattle.plate.specs.Healing.{AlwaysHeals};
ghost use Rattle.plate.specs.Pins.{OutcomesPin, AnswersPin, BeatsPin, FaultsPin};
ghost use Rattle.plate.specs.Plates.{members};

use crate::fault::{BeatFault, LayFault, MapFault, ReadFault, ShadowFault, StrikeFault};
use crate::strike::Strike;
use toom::kind::Kind;
use toom::laws::{marks_pin, only_the_torus_counts, triangle_shrinks, vote_heals};

// Whatever the kind of cell, the calls since a plate was new, and the host of each beat: outside the shadow the copies are the faultless run's, a
// shadow in a triangle shrinks with each beat, and a shadow of fewer than half of the places does not harm the reading.
pub fn always_heals<C: Kind>()
    ensures { AlwaysHeals (members C.eq C.byte_of C.cell_of) }
{
    vote_heals::<C>();
    only_the_torus_counts();
    triangle_shrinks();
}

// Each call's outcome settles its end: the answer, every cell, the state and every output element.
pub fn outcomes_pin<C: Kind>()
    ensures ends { OutcomesPin (members C.eq C.byte_of C.cell_of) }
    ensures answers { AnswersPin (members C.eq C.byte_of C.cell_of) }
    ensures beats { BeatsPin (members C.eq C.byte_of C.cell_of) }
    ensures faults { FaultsPin }
{
    marks_pin();
}

// `==` of strikes and of faults decides equality.
pub fn sameness_is_equality()
    ensures strikes { (x y : Strike) → Decides (⟦<Strike as PartialEq>⟧.eq x y) (x ≡ y) }
    ensures lay { (x y : LayFault) → Decides (⟦<LayFault as PartialEq>⟧.eq x y) (x ≡ y) }
    ensures strike { (x y : StrikeFault) → Decides (⟦<StrikeFault as PartialEq>⟧.eq x y) (x ≡ y) }
    ensures beat { (x y : BeatFault) → Decides (⟦<BeatFault as PartialEq>⟧.eq x y) (x ≡ y) }
    ensures read { (x y : ReadFault) → Decides (⟦<ReadFault as PartialEq>⟧.eq x y) (x ≡ y) }
    ensures map { (x y : MapFault) → Decides (⟦<MapFault as PartialEq>⟧.eq x y) (x ≡ y) }
    ensures shadow { (x y : ShadowFault) → Decides (⟦<ShadowFault as PartialEq>⟧.eq x y) (x ≡ y) }
{}
