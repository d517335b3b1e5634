// The wounds of a plate's cells: the places where a copy differs from its cell of the line. They are kept as a shadow, a set of places.
ghost use Rattle.std.specs.Prelude.{◌≡◌, ℕ, ◌+◌, ◌*◌, ◌<◌, ◌≤◌, true, false, length, slice_index_or, IfSome};
ghost use Rattle.toom.specs.Shadow.{marks};
ghost use Rattle.plate.specs.Layout.{size_of};
ghost use Rattle.plate.specs.Wounds.{LineOutside};

use crate::shape::Shape;
use crate::sweep::cell_at;
use toom::kind::Kind;
use toom::shadow::Shadow;

// Whether a place of the torus is a wound.
pub(crate) fn is_wound(wounds: &Shadow, row: usize, column: usize) -> bool
    requires row { row < wounds.now.side }
    requires column { column < wounds.now.side }
    ensures { result ≡ marks wounds.now row column }
{
    wounds.holds(row, column).unwrap_or(false)
}

// To look for wounds once, and to write the planes out at the end, takes as long as this many beats of all cells.
const LOOK: usize = 2;

// And as this many cells of such a beat for each plane, since each is looked at and written by itself.
const PLANE: usize = 35;

// To begin a strand takes as long as this many cells of such a beat. Measured with bits, and wounds of which no two lie side by side in a row; of
// machine cells, and of wounds side by side that rest, it is a small part of that.
const START: usize = 124;

// In a memory of more copies than NEAR the copies of a strand are far apart, and each is fetched before the first beat and brought back after the
// last: that takes as long as one cell of such a beat for each NEAR copies that there are, up to FAR of them.
const NEAR: usize = 65536;

const FAR: usize = 64;

// With more wounds than this, so many beats of all cells take less time; none where they do so even without a wound.
pub(crate) fn most_wounds(shape: Shape, times: u32) -> Option<usize>
    requires { 1 ≤ times }
{
    let copies = shape.copies();
    let price = LOOK * copies + PLANE * shape.planes;
    let left = copies.checked_sub(price / times as usize)?;
    let fetched = shape.planes * (copies / NEAR).min(FAR);
    Some(left / (shape.planes + START + fetched / times as usize))
}

// Whether all cells are this one. It reads them all, for then many are compared at once.
fn are_all<C: Kind>(cells: &[C], cell: C) -> bool
    ensures { result ≡ true → (k : ℕ) (d : C) → k < length cells.now
        → slice_index_or cells.now k d ≡ cell }
{
    let mut same = true;
    for x in cells {
        if *x != cell {
            same = false;
        }
    }
    same
}

// Adds the places of a row whose cells are not this one, and says how many of them are new.
fn add_row<C: Kind>(wounds: &mut Shadow, row: usize, cells: &[C], cell: C) -> usize
    requires row { row < wounds.old.side }
    requires cells { wounds.old.side ≤ length cells.now }
    ensures side { wounds.new.side ≡ wounds.old.side }
    ensures stay { (r c : ℕ) → r < wounds.old.side → c < wounds.old.side
        → marks wounds.new r c ≡ false → marks wounds.old r c ≡ false }
    ensures clear { (c : ℕ) (d : C) → c < wounds.old.side → marks wounds.new row c ≡ false
        → slice_index_or cells.now c d ≡ cell }
{
    let mut new = 0;
    for column in 0..wounds.side() {
        if cell_at(cells, column) != cell && !is_wound(wounds, row, column) {
            let _ = wounds.add(row, column);
            new += 1;
        }
    }
    new
}

// Adds the places of a plane whose cells are not this one. It says how many more may come after these, or none where there are too many already.
fn add_plane<C: Kind>(wounds: &mut Shadow, plane: &[C], cell: C, room: usize) -> Option<usize>
    requires { wounds.old.side * wounds.old.side ≤ length plane.now }
    ensures side { wounds.new.side ≡ wounds.old.side }
    ensures stay { (r c : ℕ) → r < wounds.old.side → c < wounds.old.side
        → marks wounds.new r c ≡ false → marks wounds.old r c ≡ false }
    ensures clear { IfSome result (λ _. (r c : ℕ) (d : C) → r < wounds.old.side
        → c < wounds.old.side → marks wounds.new r c ≡ false
        → slice_index_or plane.now (r * wounds.old.side + c) d ≡ cell) }
{
    if are_all(plane, cell) {
        return Some(room);
    }
    let side = wounds.side();
    let mut room = room;
    for row in 0..side {
        let places = &plane[row * side..row * side + side];
        // A row without wounds is passed over whole, for then many cells are compared at once.
        if !are_all(places, cell) {
            room = room.checked_sub(add_row(wounds, row, places, cell))?;
        }
    }
    Some(room)
}

// The wounds of the cells, the places where a copy is not its plane's cell of the line; or none where they are more than `most`.
pub(crate) fn wounds_of<C: Kind>(cells: &[C], shape: Shape, most: usize) -> Option<Shadow>
    requires { size_of shape.planes shape.side ≤ length cells.now }
    ensures side { IfSome result (λ s. s.side ≡ shape.side) }
    ensures outside { IfSome result
        (λ s. LineOutside (marks s) shape.planes shape.side cells.now) }
{
    let area = shape.area();
    let line = 2 * shape.copies();
    let mut wounds = Shadow::empty(shape.side)?;
    let mut room = most;
    for i in 0..shape.planes {
        let plane = i * area;
        room = add_plane(
            &mut wounds,
            &cells[plane..plane + area],
            cell_at(cells, line + i),
            room,
        )?;
    }
    Some(wounds)
}
