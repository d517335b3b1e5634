// The laws of the vote and of the shadow, each the contract of a function that does nothing.
ghost use Rattle.std.specs.Prelude.{◌≡◌, Decides};
ghost use Rattle.std.specs.Bool.{beq};
ghost use Rattle.toom.specs.Bit.{equal_bits};
ghost use Rattle.toom.specs.Inclusion.{VoteKeepsInclusion};
ghost use Rattle.toom.specs.MachineCell.{PartsMakeCells, SameParts, equal_machine_cells};
ghost use Rattle.toom.specs.Lines.{LinesStay, BoundIsSharp};
ghost use Rattle.toom.specs.Shadow.{MarksPin, SidesFit, equal_shadows};
ghost use Rattle.toom.specs.Torus.{SameCounts};
ghost use Rattle.toom.specs.Triangle.{TriangleShrinks, TriangleVanishes};
ghost use Rattle.toom.specs.Vote.{OneWounded, HealsOutside, SameVotes};

use crate::bit::Bit;
use crate::kind::Kind;
use crate::machine_cell::MachineCell;
use crate::shadow::Shadow;

// At most one wounded copy is healed; so where the copies outside a shadow are right, those outside the voted shadow are right after the vote.
pub fn vote_heals<C: Kind>()
    ensures cells { OneWounded C.eq }
    ensures planes { HealsOutside C.eq }
{}

// Only the places of the torus count: shadows that are the same there vote alike, and have as many marks.
pub fn only_the_torus_counts()
    ensures votes { SameVotes beq }
    ensures marks { SameCounts }
{}

// A machine cell is its head and its symbol, and nothing else; every two numbers of at most 15 are those of a cell.
pub fn parts_pin()
    ensures pin { (x y : MachineCell) → SameParts x y → x ≡ y }
    ensures make { PartsMakeCells }
{}

// A shadow is its side, which a torus may have, and its marks, so the vote depends on nothing but the bits.
pub fn marks_pin()
    ensures pin { MarksPin }
    ensures sides { SidesFit }
{}

// A shadow in a right triangle shrinks by one with each vote, until it is empty.
pub fn triangle_shrinks()
    ensures shrinks { TriangleShrinks }
    ensures vanishes { TriangleVanishes }
{}

// Full rows and columns stay, so the triangle has to be shorter than the torus.
pub fn full_lines_stay()
    ensures stay { LinesStay }
    ensures sharp { BoundIsSharp }
{}

// A smaller shadow votes into a smaller shadow.
pub fn inclusion_is_kept()
    ensures { VoteKeepsInclusion }
{}

// What `==` says: of bits, of machine cells and of shadows what their definitions say; of machine cells it decides whether head and symbol are the
// same, and of shadows equality.
#[tactic(auto, using(crate::specs::EqualShadows::equal_shadows_decides))]
pub fn sameness_is_equality()
    ensures bits { (x y : Bit) → ⟦<Bit as PartialEq>⟧.eq x y ≡ equal_bits x y }
    ensures machine_cells { (x y : MachineCell) → ⟦<MachineCell as PartialEq>⟧.eq x y ≡ equal_machine_cells x y }
    ensures parts { (x y : MachineCell) → Decides (⟦<MachineCell as PartialEq>⟧.eq x y) (SameParts x y) }
    ensures shadows { (x y : Shadow) → ⟦<Shadow as PartialEq>⟧.eq x y ≡ equal_shadows x y }
    ensures decides { (x y : Shadow) → Decides (⟦<Shadow as PartialEq>⟧.eq x y) (x ≡ y) }
{}
