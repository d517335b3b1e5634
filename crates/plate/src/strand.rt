// The strand of one place: its copies, plane after plane, one after another as the cells of the line are. It is voted, and steps as the line does.
ghost use Rattle.std.specs.Prelude.{◌≡◌, ℕ, ◌+◌, ◌<◌, ◌≤◌, ◌⊎◌, length};
ghost use Rattle.toom.specs.Shadow.{marks};
ghost use Rattle.plate.specs.Layout.{size_of};
ghost use Rattle.plate.specs.Wounds.{AtPlace, StrandsGathered, StrandsSettled, StrandsStepped, StrandsVoted, seen_at};

use crate::shape::Shape;
use crate::sweep::{Ballot, after, cell_at, fill, put, step_ring};
use crate::wounds::is_wound;
use hosts::host::Host;
use toom::kind::Kind;
use toom::shadow::Shadow;

// Where the copies of a place are seen, plane after plane: its strand among those that are kept if the place is a wound, else the line.
fn source_of(shape: Shape, wounds: &Shadow, row: usize, column: usize) -> usize
    requires side { wounds.now.side ≡ shape.side }
    requires row { row < shape.side }
    requires column { column < shape.side }
    ensures { (i : ℕ) → result + i
        ≡ seen_at (marks wounds.now) shape.planes shape.side i row column }
{
    if is_wound(wounds, row, column) {
        shape.copies() + (row * shape.side + column) * shape.planes
    } else {
        2 * shape.copies()
    }
}

// Writes the strand of a place from its copies.
pub(crate) fn gather_strand<C: Kind>(cells: &mut [C], shape: Shape, row: usize, column: usize)
    requires cells { size_of shape.planes shape.side ≤ length cells.old }
    requires row { row < shape.side }
    requires column { column < shape.side }
    ensures { StrandsGathered shape.planes shape.side (AtPlace row column) cells.old cells.new }
{
    let area = shape.area();
    let place = row * shape.side + column;
    let to = shape.copies() + place * shape.planes;
    for i in 0..shape.planes {
        let copy = cell_at(cells, i * area + place);
        put(cells, to + i, copy);
    }
}

// Votes the strand of a place, as the planes are seen. The votes lie where else the copies do.
pub(crate) fn vote_strand<C: Kind>(
    cells: &mut [C],
    shape: Shape,
    wounds: &Shadow,
    row: usize,
    column: usize,
)
    requires cells { size_of shape.planes shape.side ≤ length cells.old }
    requires side { wounds.now.side ≡ shape.side }
    requires row { row < shape.side }
    requires column { column < shape.side }
    ensures { StrandsVoted C.eq (marks wounds.now) shape.planes shape.side (AtPlace row column)
        cells.old cells.new }
{
    let side = shape.side;
    let planes = shape.planes;
    let to = (row * side + column) * planes;
    let north = source_of(shape, wounds, after(row, side), column);
    let east = source_of(shape, wounds, row, after(column, side));
    let own = source_of(shape, wounds, row, column);
    fill(&Ballot, cells, to, north, east, own, planes);
}

// Steps the strand of a place from its votes.
pub(crate) fn step_strand<C: Kind, H: Host<C>>(
    host: &H,
    cells: &mut [C],
    shape: Shape,
    row: usize,
    column: usize,
)
    requires cells { size_of shape.planes shape.side ≤ length cells.old }
    requires row { row < shape.side }
    requires column { column < shape.side }
    ensures { StrandsStepped (H.meaning host.now) shape.planes shape.side (AtPlace row column)
        cells.old cells.new }
{
    let planes = shape.planes;
    let from = (row * shape.side + column) * planes;
    step_ring(host, cells, shape.copies() + from, from, planes);
}

// Steps the two ends of the strand of a place from their votes. Each has a neighbour at the other end.
pub(crate) fn step_ends<C: Kind, H: Host<C>>(
    host: &H,
    cells: &mut [C],
    shape: Shape,
    row: usize,
    column: usize,
)
    requires planes { 2 ≤ shape.planes }
    requires cells { size_of shape.planes shape.side ≤ length cells.old }
    requires row { row < shape.side }
    requires column { column < shape.side }
    ensures { StrandsStepped (H.meaning host.now) shape.planes shape.side
        (λ i r c. ((i ≡ 0) ⊎ (i + 1 ≡ shape.planes)) × AtPlace row column i r c)
        cells.old cells.new }
{
    let first = (row * shape.side + column) * shape.planes;
    let last = first + (shape.planes - 1);
    let to = shape.copies();
    let start = cell_at(cells, first);
    let end = cell_at(cells, last);
    let stepped_start = host.answer(end, start, cell_at(cells, first + 1));
    let stepped_end = host.answer(cell_at(cells, last - 1), end, start);
    put(cells, to + first, stepped_start);
    put(cells, to + last, stepped_end);
}

// Writes the copies of a place from its strand.
pub(crate) fn settle_place<C: Kind>(cells: &mut [C], shape: Shape, row: usize, column: usize)
    requires cells { size_of shape.planes shape.side ≤ length cells.old }
    requires row { row < shape.side }
    requires column { column < shape.side }
    ensures { StrandsSettled shape.planes shape.side (AtPlace row column) cells.old cells.new }
{
    let area = shape.area();
    let place = row * shape.side + column;
    let from = shape.copies() + place * shape.planes;
    for i in 0..shape.planes {
        let copy = cell_at(cells, from + i);
        put(cells, i * area + place, copy);
    }
}
