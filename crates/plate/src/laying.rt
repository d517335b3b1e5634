// The cells of a new plate: every copy, voted copy and line cell that a tape names.
ghost use Rattle.std.specs.Prelude.{◌≡◌, ℕ, ◌+◌, ◌*◌, ◌<◌, ◌≤◌, true, length, is_some, slice_index};
ghost use Rattle.plate.specs.LayCall.{CellsLaid};
ghost use Rattle.plate.specs.Layout.{size_of};
ghost use Rattle.plate.specs.Painted.{Painted, BlocksPainted};

use crate::shape::Shape;
use toom::kind::Kind;

// Writes a cell to `count` places from `from` on.
pub(crate) fn paint<C: Kind>(cells: &mut [C], from: usize, count: usize, cell: C)
    requires { from + count ≤ length cells.old }
    ensures { Painted from count cell cells.old cells.new }
{
    // A line is painted cell by cell, for each of which the loop below would call the system's `memset`.
    if count == 1 {
        cells[from] = cell;
        return;
    }
    // A `fill` asks for a clone that cannot fail, which not every kind promises.
    for place in cells[from..from + count].iter_mut() {
        *place = cell;
    }
}

// Writes from `from` on a block of w cells for each byte of the tape, of the cell that the byte names.
fn paint_blocks<C: Kind>(cells: &mut [C], from: usize, w: usize, tape: &[u8])
    requires within { from + length tape.now * w ≤ length cells.old }
    requires named { (i : ℕ) → i < length tape.now → is_some (C.cell_of (slice_index tape.now i)) ≡ true }
    ensures { BlocksPainted C.cell_of from (length tape.now) w tape.now cells.old cells.new }
{
    // The blocks by their start: a proof knows nothing of what is written through `chunks_exact_mut`.
    let mut at = from;
    for byte in tape {
        if let Some(cell) = C::from_byte(*byte) {
            paint(cells, at, w, cell);
        }
        at += w;
    }
}

// Lays the cells that the tape names.
pub(crate) fn lay_cells<C: Kind>(cells: &mut [C], shape: Shape, tape: &[u8])
    requires within { size_of shape.planes shape.side ≤ length cells.old }
    requires long { length tape.now ≡ shape.planes }
    requires named { (i : ℕ) → i < shape.planes → is_some (C.cell_of (slice_index tape.now i)) ≡ true }
    ensures { CellsLaid C.cell_of shape.planes shape.side tape.now cells.old cells.new }
{
    let area = shape.area();
    let copies = shape.copies();
    paint_blocks(cells, 0, area, tape);
    paint_blocks(cells, copies, area, tape);
    paint_blocks(cells, 2 * copies, 1, tape);
    paint_blocks(cells, 2 * copies + shape.planes, 1, tape);
}
