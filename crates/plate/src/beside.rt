// The places beside wounds: those that are none themselves, and that the votes of wounds read.
ghost use Rattle.std.specs.Prelude.{◌≡◌, ℕ, ◌+◌, ◌<◌, ◌≤◌};
ghost use Rattle.toom.specs.Shadow.{marks};
ghost use Rattle.plate.specs.Beside.{Beside, InEither, ReadsEither, SoundAdded};

use crate::sweep::after;
use crate::wounds::is_wound;
use toom::shadow::Shadow;
use toom::shadow::stretches::Stretch;

// Adds a place, if it is no wound.
fn add_sound(beside: &mut Shadow, wounds: &Shadow, row: usize, column: usize)
    requires side { beside.old.side ≡ wounds.now.side }
    requires row { row < wounds.now.side }
    requires column { column < wounds.now.side }
    ensures added { SoundAdded (marks wounds.now) beside.old beside.new }
    ensures either { InEither (marks wounds.now) (marks beside.new) row column }
{
    if !is_wound(wounds, row, column) {
        let _ = beside.add(row, column);
    }
}

// Adds the places north and east of a stretch of wounds.
fn add_beside(beside: &mut Shadow, wounds: &Shadow, stretch: Stretch)
    requires side { beside.old.side ≡ wounds.now.side }
    requires row { stretch.row < wounds.now.side }
    requires columns { stretch.column + stretch.length ≤ wounds.now.side }
    ensures added { SoundAdded (marks wounds.now) beside.old beside.new }
    ensures read { (c : ℕ) → stretch.column ≤ c → c < stretch.column + stretch.length
        → ReadsEither wounds.now.side (marks wounds.now) (marks beside.new) stretch.row c }
{
    let side = wounds.side();
    let north = after(stretch.row, side);
    for column in stretch.column..stretch.column + stretch.length {
        add_sound(beside, wounds, north, column);
        add_sound(beside, wounds, stretch.row, after(column, side));
    }
}

// All places beside the wounds.
pub(crate) fn beside_of(wounds: &Shadow) -> Shadow
    ensures side { result.side ≡ wounds.now.side }
    ensures beside { Beside wounds.now.side (marks wounds.now) (marks result) }
{
    let mut beside = Shadow::empty(wounds.side()).unwrap();
    for stretch in wounds.stretches() {
        add_beside(&mut beside, wounds, stretch);
    }
    beside
}
