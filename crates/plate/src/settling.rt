// The planes written out: all copies from the line, and over them those of the wounds from their strands.
ghost use Rattle.std.specs.Prelude.{◌≡◌, ◌+◌, ◌*◌, ◌<◌, ◌≤◌, length};
ghost use Rattle.toom.specs.Shadow.{marks};
ghost use Rattle.plate.specs.Layout.{size_of};
ghost use Rattle.plate.specs.Wounds.{CopiesSettled, InStretch, Marked, PlanesWritten, StrandsSettled};

use crate::laying::paint;
use crate::shape::Shape;
use crate::strand::settle_place;
use crate::sweep::cell_at;
use toom::kind::Kind;
use toom::shadow::Shadow;
use toom::shadow::stretches::Stretch;

// Writes the planes that begin at `base`: each of its cell from `from` on.
pub(crate) fn write_planes<C: Kind>(cells: &mut [C], shape: Shape, base: usize, from: usize)
    requires from { base + shape.planes * (shape.side * shape.side) ≤ from }
    requires cells { from + shape.planes ≤ length cells.old }
    ensures { PlanesWritten base from shape.planes shape.side cells.old cells.new }
{
    let area = shape.area();
    for i in 0..shape.planes {
        let cell = cell_at(cells, from + i);
        paint(cells, base + i * area, area, cell);
    }
}

// Writes the copies of a stretch from their strands.
fn settle_stretch<C: Kind>(cells: &mut [C], shape: Shape, stretch: Stretch)
    requires cells { size_of shape.planes shape.side ≤ length cells.old }
    requires row { stretch.row < shape.side }
    requires columns { stretch.column + stretch.length ≤ shape.side }
    ensures { StrandsSettled shape.planes shape.side (InStretch stretch) cells.old cells.new }
{
    for column in stretch.column..stretch.column + stretch.length {
        settle_place(cells, shape, stretch.row, column);
    }
}

// Writes the copies of the wounds from their strands.
fn settle_wounds<C: Kind>(cells: &mut [C], shape: Shape, wounds: &Shadow)
    requires cells { size_of shape.planes shape.side ≤ length cells.old }
    requires side { wounds.now.side ≡ shape.side }
    ensures { StrandsSettled shape.planes shape.side (Marked (marks wounds.now))
        cells.old cells.new }
{
    for stretch in wounds.stretches() {
        settle_stretch(cells, shape, stretch);
    }
}

// Writes all copies as they are seen: all from the line, and then those of the wounds from their strands.
pub(crate) fn settle<C: Kind>(cells: &mut [C], shape: Shape, wounds: &Shadow)
    requires cells { size_of shape.planes shape.side ≤ length cells.old }
    requires side { wounds.now.side ≡ shape.side }
    ensures { CopiesSettled (marks wounds.now) shape.planes shape.side cells.old cells.new }
{
    write_planes(cells, shape, 0, 2 * shape.copies());
    settle_wounds(cells, shape, wounds);
}
