// The map of a plate: at each place, how many planes' copies differ from their cell of the line. Shape and memory are two parameters, as in
// `reading`.
ghost use Rattle.std.specs.Prelude.{◌≡◌, ℕ, ◌+◌, ◌*◌, ◌<◌, ◌≤◌, ◌++◌, map, length, drop, slice_index, slice_index_or};
ghost use Rattle.std.specs.List.{range_with_len};
ghost use Rattle.toom.specs.Vote.{wounded};
ghost use Rattle.plate.specs.Layout.{size_of};
ghost use Rattle.plate.specs.MapCall.{hurt_at};

use crate::shape::Shape;
use toom::kind::Kind;

// 1 if the copy differs from the line, else 0.
fn hurt<C: Kind>(copy: C, line: C) -> u16
    ensures { result ≡ wounded C.eq line copy }
{
    u16::from(copy != line)
}

// Adds 1 to the count of each place whose copy differs from the line.
fn add_hurt<C: Kind>(counts: &mut [u16], plane: &[C], line: C)
    requires room { length plane.now ≤ length counts.old }
    requires low { (k : ℕ) → k < length plane.now → slice_index counts.old k ≤ 4096 }
    ensures places { (k : ℕ) (d : C) → k < length plane.now → slice_index counts.new k ≡ slice_index counts.old k + wounded C.eq line (slice_index_or plane.now k d) }
    ensures rest { (k : ℕ) → length plane.now ≤ k → slice_index counts.new k ≡ slice_index counts.old k }
{
    // Not `iter_mut` in a `zip`, after which a proof knows none of the counts.
    for (k, copy) in plane.iter().enumerate() {
        counts[k] += hurt(*copy, line);
    }
}

// Writes the count of each place, row by row.
pub(crate) fn write_map<C: Kind>(cells: &[C], shape: Shape, out: &mut [u16])
    requires size { size_of shape.planes shape.side ≤ length cells.now }
    requires room { shape.side * shape.side ≤ length out.old }
    ensures { (d : C) → out.new ≡ map (hurt_at C.eq shape.planes shape.side cells.now d) (range_with_len 0 (shape.side * shape.side)) ++ drop (shape.side * shape.side) out.old }
{
    let area = shape.area();
    let copies = shape.copies();
    let line = &cells[2 * copies..2 * copies + shape.planes];
    out[..area].fill(0);
    for (plane, cell) in cells[..copies].chunks_exact(area).zip(line) {
        add_hurt(out, plane, *cell);
    }
}
