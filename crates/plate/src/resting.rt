// The strands of wounds that rest: with the line written to the strands beside them, their votes read strands alone, a stretch in one sweep.
ghost use Rattle.std.specs.Prelude.{◌≡◌, ℕ, ◌+◌, ◌*◌, ◌<◌, ◌≤◌, true, length};
ghost use Rattle.toom.specs.Shadow.{marks};
ghost use Rattle.toom.specs.Torus.{next};
ghost use Rattle.plate.specs.Beside.{LineSpread, RepeatsLine};
ghost use Rattle.plate.specs.Layout.{size_of};
ghost use Rattle.plate.specs.Sweep.{Swept};
ghost use Rattle.plate.specs.Wounds.{InStretch, Marked, StrandsVoted};

use crate::shape::Shape;
use crate::sweep::{Ballot, after, fill};
use toom::kind::Kind;
use toom::shadow::Shadow;
use toom::shadow::stretches::Stretch;

// Writes the line to `count` strands, one after another. Each `copy_within` doubles what is written, since to begin one takes longer than to move
// the cells of a few strands.
fn repeat_line<C: Kind>(cells: &mut [C], shape: Shape, to: usize, count: usize)
    requires some { 1 ≤ count }
    requires to { to + count * shape.planes ≤ 2 * (shape.planes * (shape.side * shape.side)) }
    requires cells { size_of shape.planes shape.side ≤ length cells.old }
    ensures { Swept to (count * shape.planes) (RepeatsLine shape.planes shape.side cells.old)
        cells.old cells.new }
{
    let planes = shape.planes;
    let line = 2 * shape.copies();
    cells.copy_within(line..line + planes, to);
    let mut done = 1;
    while done < count {
        let more = done.min(count - done);
        cells.copy_within(to..to + more * planes, to + done * planes);
        done += more;
    }
}

// Writes the line to the strands of a stretch.
fn spread_stretch<C: Kind>(cells: &mut [C], shape: Shape, stretch: Stretch)
    requires cells { size_of shape.planes shape.side ≤ length cells.old }
    requires row { stretch.row < shape.side }
    requires some { 1 ≤ stretch.length }
    requires columns { stretch.column + stretch.length ≤ shape.side }
    ensures { LineSpread shape.planes shape.side (InStretch stretch) cells.old cells.new }
{
    let place = stretch.row * shape.side + stretch.column;
    repeat_line(
        cells,
        shape,
        shape.copies() + place * shape.planes,
        stretch.length,
    );
}

// Writes the line to the strands of these places.
pub(crate) fn spread_line<C: Kind>(cells: &mut [C], shape: Shape, places: &Shadow)
    requires cells { size_of shape.planes shape.side ≤ length cells.old }
    requires side { places.now.side ≡ shape.side }
    ensures { LineSpread shape.planes shape.side (Marked (marks places.now)) cells.old cells.new }
{
    for stretch in places.stretches() {
        spread_stretch(cells, shape, stretch);
    }
}

// Votes a stretch of strands whose easts lie one after another, from that of the place `east` on.
fn vote_part<C: Kind>(cells: &mut [C], shape: Shape, stretch: Stretch, east: usize)
    requires cells { size_of shape.planes shape.side ≤ length cells.old }
    requires row { stretch.row < shape.side }
    requires columns { stretch.column + stretch.length ≤ shape.side }
    requires within { east + stretch.length ≤ shape.side * shape.side }
    requires east { (q : ℕ) → q < stretch.length
        → stretch.row * shape.side + next shape.side (stretch.column + q) ≡ east + q }
    ensures { StrandsVoted C.eq (λ r c. true) shape.planes shape.side (InStretch stretch)
        cells.old cells.new }
{
    let side = shape.side;
    let planes = shape.planes;
    let strands = shape.copies();
    let north = after(stretch.row, side) * side + stretch.column;
    let own = stretch.row * side + stretch.column;
    fill(
        &Ballot,
        cells,
        own * planes,
        strands + north * planes,
        strands + east * planes,
        strands + own * planes,
        stretch.length * planes,
    );
}

// Votes the strands of a stretch. East of the last column is the first one: so it is voted apart.
fn vote_lying_stretch<C: Kind>(cells: &mut [C], shape: Shape, stretch: Stretch)
    requires cells { size_of shape.planes shape.side ≤ length cells.old }
    requires row { stretch.row < shape.side }
    requires some { 1 ≤ stretch.length }
    requires columns { stretch.column + stretch.length ≤ shape.side }
    ensures { StrandsVoted C.eq (λ r c. true) shape.planes shape.side (InStretch stretch)
        cells.old cells.new }
{
    let row = stretch.row;
    let column = stretch.column;
    let first = row * shape.side;
    let last = shape.side - 1;
    let inner = stretch.length.min(last - column);
    vote_part(
        cells,
        shape,
        Stretch {
            row,
            column,
            length: inner,
        },
        first + column + 1,
    );
    if inner < stretch.length {
        vote_part(
            cells,
            shape,
            Stretch {
                row,
                column: last,
                length: 1,
            },
            first,
        );
    }
}

// Votes the strands of the wounds as they lie, as if every place were wounded.
pub(crate) fn vote_lying<C: Kind>(cells: &mut [C], shape: Shape, wounds: &Shadow)
    requires cells { size_of shape.planes shape.side ≤ length cells.old }
    requires side { wounds.now.side ≡ shape.side }
    ensures { StrandsVoted C.eq (λ r c. true) shape.planes shape.side (Marked (marks wounds.now))
        cells.old cells.new }
{
    for stretch in wounds.stretches() {
        vote_lying_stretch(cells, shape, stretch);
    }
}
