// Sweeps over a plate's cells: each reads one part of the memory and writes another.
ghost use Rattle.std.specs.Prelude.{◌≡◌, ◌+◌, ◌*◌, ◌<◌, ◌≤◌, ◌⊎◌, length, slice_index_or, slice_set};
ghost use Rattle.toom.specs.Torus.{Side, next};
ghost use Rattle.toom.specs.Vote.{vote_of};
ghost use Rattle.hosts.specs.Ring.{right_of};
ghost use Rattle.plate.specs.BeatCall.{CellsBeaten};
ghost use Rattle.plate.specs.Layout.{size_of};
ghost use Rattle.plate.specs.Sweep.{Apart, Swept, HostAnswers, InColumn, InRow, OnEdge, PlacesVoted, PlanesVotes, RingSteps, Steps};

use crate::shape::Shape;
use hosts::host::Host;
use toom::kind::Kind;
use toom::vote::vote;

// The host that answers with the vote of north, east and own. A host and no closure: clauses name a host's function, its meaning.
pub(crate) struct Ballot;

impl<C: Kind> Host<C> for Ballot {
    ghost meaning = { λ _. vote_of C.eq };

    fn answer(&self, north: C, east: C, own: C) -> C {
        vote(north, east, own)
    }
}

// Writes the host's answers to the cells from a, b and c on.
pub(crate) fn fill<C: Kind, H: Host<C>>(
    host: &H,
    cells: &mut [C],
    to: usize,
    a: usize,
    b: usize,
    c: usize,
    count: usize,
)
    requires to { to + count ≤ length cells.old }
    requires a { a + count ≤ length cells.old }
    requires b { b + count ≤ length cells.old }
    requires c { c + count ≤ length cells.old }
    requires left { Apart to a count }
    requires centre { Apart to b count }
    requires right { Apart to c count }
    ensures { Swept to count (HostAnswers (H.meaning host.now) a b c cells.old) cells.old cells.new }
{
    // By index: the cells that are written and the three that are read lie in one slice.
    for j in 0..count {
        cells[to + j] = host.answer(cells[a + j], cells[b + j], cells[c + j]);
    }
}

// The row or column after one, round the torus.
pub(crate) fn after(at: usize, side: usize) -> usize
    requires side { Side side }
    requires at { at < side }
    ensures { result ≡ next side at }
{
    if at + 1 == side { 0 } else { at + 1 }
}

// Writes one vote: `fill` of one place, without its loop.
fn vote_one<C: Kind>(cells: &mut [C], to: usize, north: usize, east: usize, own: usize)
    requires to { to < length cells.old }
    requires north { north < length cells.old }
    requires east { east < length cells.old }
    requires own { own < length cells.old }
    ensures { Swept to 1 (HostAnswers (vote_of C.eq) north east own cells.old) cells.old cells.new }
{
    cells[to] = vote(cells[north], cells[east], cells[own]);
}

// Votes one place of every plane.
fn vote_place<C: Kind>(cells: &mut [C], shape: Shape, row: usize, column: usize)
    requires cells { 2 * (shape.planes * (shape.side * shape.side)) ≤ length cells.old }
    requires row { row < shape.side }
    requires column { column < shape.side }
    ensures { PlacesVoted C.eq shape.planes shape.side (λ i r c. (r ≡ row) × (c ≡ column)) cells.old cells.new }
{
    let side = shape.side;
    let area = shape.area();
    let votes = shape.copies();
    let north = after(row, side) * side + column;
    let east = row * side + after(column, side);
    let own = row * side + column;
    // By index: the planes are read out of the slice that is written.
    for i in 0..shape.planes {
        let plane = i * area;
        vote_one(
            cells,
            votes + plane + own,
            plane + north,
            plane + east,
            plane + own,
        );
    }
}

// Votes the last column of plane i, but for its last place.
fn vote_last_column<C: Kind>(cells: &mut [C], shape: Shape, i: usize)
    requires cells { 2 * (shape.planes * (shape.side * shape.side)) ≤ length cells.old }
    requires plane { i < shape.planes }
    ensures { PlacesVoted C.eq shape.planes shape.side (λ k r c. (k ≡ i) × InColumn shape.side r c) cells.old cells.new }
{
    let side = shape.side;
    let last = side - 1;
    let plane = i * shape.area();
    let votes = shape.copies();
    // By index: a row is read with the next one, out of the slice that is written.
    for r in 0..last {
        let row = plane + r * side;
        vote_one(
            cells,
            votes + row + last,
            row + side + last,
            row,
            row + last,
        );
    }
}

// Votes the last row of plane i, but for its last place.
fn vote_last_row<C: Kind>(cells: &mut [C], shape: Shape, i: usize)
    requires cells { 2 * (shape.planes * (shape.side * shape.side)) ≤ length cells.old }
    requires plane { i < shape.planes }
    ensures { PlacesVoted C.eq shape.planes shape.side (λ k r c. (k ≡ i) × InRow shape.side r c) cells.old cells.new }
{
    let last = shape.side - 1;
    let plane = i * shape.area();
    let row = plane + last * shape.side;
    fill(
        &Ballot,
        cells,
        shape.copies() + row,
        plane,
        row + 1,
        row,
        last,
    );
}

// Votes the last columns and rows but for the corners, plane by plane.
fn vote_along<C: Kind>(cells: &mut [C], shape: Shape)
    requires { 2 * (shape.planes * (shape.side * shape.side)) ≤ length cells.old }
    ensures { PlacesVoted C.eq shape.planes shape.side (λ i r c. InColumn shape.side r c ⊎ InRow shape.side r c) cells.old cells.new }
{
    for i in 0..shape.planes {
        vote_last_column(cells, shape, i);
        vote_last_row(cells, shape, i);
    }
}

// The same place by place, each in all planes.
fn vote_across<C: Kind>(cells: &mut [C], shape: Shape)
    requires { 2 * (shape.planes * (shape.side * shape.side)) ≤ length cells.old }
    ensures { PlacesVoted C.eq shape.planes shape.side (λ i r c. InColumn shape.side r c ⊎ InRow shape.side r c) cells.old cells.new }
{
    let last = shape.side - 1;
    for j in 0..last {
        vote_place(cells, shape, j, last);
        vote_place(cells, shape, last, j);
    }
}

// A loop over fewer places costs more to set up than the places do.
const SHORT: usize = 8;

// Votes the last column and the last row of every plane.
fn vote_edges<C: Kind>(cells: &mut [C], shape: Shape)
    requires { 2 * (shape.planes * (shape.side * shape.side)) ≤ length cells.old }
    ensures { PlacesVoted C.eq shape.planes shape.side (λ i r c. OnEdge shape.side r c) cells.old cells.new }
{
    let last = shape.side - 1;
    vote_place(cells, shape, last, last);
    if shape.side < SHORT {
        vote_across(cells, shape);
    } else {
        vote_along(cells, shape);
    }
}

// Votes the planes of side 2. Each cell is read once, before the votes of its plane are written. Where a place is voted by itself, LLVM makes of the
// choice a branch on the cells, and no processor foresees it where they are chaotic.
fn vote_squares<C: Kind>(cells: &mut [C], planes: usize)
    requires { 2 * (planes * (2 * 2)) ≤ length cells.old }
    ensures { Swept (planes * (2 * 2)) (planes * (2 * 2)) (PlanesVotes C.eq planes 2 cells.old) cells.old cells.new }
{
    let votes = 4 * planes;
    for i in 0..planes {
        let at = 4 * i;
        // Row 0 has a and b, row 1 c and d. North of a row is the other row, east of a column the other column.
        let a = cell_at(cells, at);
        let b = cell_at(cells, at + 1);
        let c = cell_at(cells, at + 2);
        let d = cell_at(cells, at + 3);
        let to = votes + at;
        put(cells, to, vote(c, b, a));
        put(cells, to + 1, vote(d, a, b));
        put(cells, to + 2, vote(a, d, c));
        put(cells, to + 3, vote(b, c, d));
    }
}

// Votes the planes into the part of the memory after them. One sweep over all of them takes least time. Its north is wrong in the last rows, and
// its east in the last columns: so these are voted again.
fn vote_planes<C: Kind>(cells: &mut [C], shape: Shape)
    requires { 2 * (shape.planes * (shape.side * shape.side)) ≤ length cells.old }
    ensures { Swept (shape.planes * (shape.side * shape.side)) (shape.planes * (shape.side * shape.side)) (PlanesVotes C.eq shape.planes shape.side cells.old) cells.old cells.new }
{
    if shape.side == 2 {
        vote_squares(cells, shape.planes);
        return;
    }
    let votes = shape.copies();
    fill(&Ballot, cells, votes, shape.side, 1, 0, votes - shape.side);
    vote_edges(cells, shape);
}

// One step of the ring of n blocks of w cells at from. The first and the last block have a neighbour at the ring's other end.
fn ring_step<C: Kind, H: Host<C>>(
    host: &H,
    cells: &mut [C],
    to: usize,
    from: usize,
    n: usize,
    w: usize,
)
    requires some { 1 ≤ n }
    requires to { to + n * w ≤ length cells.old }
    requires from { from + n * w ≤ length cells.old }
    requires apart { Apart to from (n * w) }
    ensures { Swept to (n * w) (RingSteps (H.meaning host.now) from n w cells.old) cells.old cells.new }
{
    if n == 1 {
        fill(host, cells, to, from, from, from, w);
        return;
    }
    let last = (n - 1) * w;
    fill(host, cells, to, from + last, from, from + w, w);
    fill(host, cells, to + w, from, from + w, from + 2 * w, last - w);
    fill(
        host,
        cells,
        to + last,
        from + last - w,
        from + last,
        from,
        w,
    );
}

// The cell right of one on a ring.
fn right(i: usize, n: usize) -> usize
    requires { i < n }
    ensures { result ≡ right_of n i }
{
    if i + 1 == n { 0 } else { i + 1 }
}

// Functions, so that their clauses say which cell is read, and what becomes of the whole slice.
pub(crate) fn cell_at<C: Kind>(cells: &[C], at: usize) -> C
    requires { at < length cells.now }
    ensures { (d : C) → result ≡ slice_index_or cells.now at d }
{
    cells[at]
}

pub(crate) fn put<C: Kind>(cells: &mut [C], at: usize, cell: C)
    requires { at < length cells.old }
    ensures { cells.new ≡ slice_set cells.old at cell }
{
    cells[at] = cell;
}

// One step of a ring of single cells, each read once: a cell is the next one's left.
fn step_short<C: Kind, H: Host<C>>(host: &H, cells: &mut [C], to: usize, from: usize, n: usize)
    requires some { 1 ≤ n }
    requires to { to + n ≤ length cells.old }
    requires from { from + n ≤ length cells.old }
    requires apart { Apart to from n }
    ensures { Swept to n (Steps (H.meaning host.now) from n cells.old) cells.old cells.new }
{
    let mut left = cell_at(cells, from + (n - 1));
    let mut own = cell_at(cells, from);
    for i in 0..n {
        let next = cell_at(cells, from + right(i, n));
        put(cells, to + i, host.answer(left, own, next));
        left = own;
        own = next;
    }
}

// One step of a ring of single cells.
pub(crate) fn step_ring<C: Kind, H: Host<C>>(
    host: &H,
    cells: &mut [C],
    to: usize,
    from: usize,
    n: usize,
)
    requires some { 1 ≤ n }
    requires to { to + n ≤ length cells.old }
    requires from { from + n ≤ length cells.old }
    requires apart { Apart to from n }
    ensures { Swept to n (Steps (H.meaning host.now) from n cells.old) cells.old cells.new }
{
    if n < SHORT {
        step_short(host, cells, to, from, n);
    } else {
        ring_step(host, cells, to, from, n, 1);
    }
}

// One beat of the cells: all planes are voted, the copies step from the votes, and the line is kept as the earlier line and steps from there.
pub(crate) fn beat_cells<C: Kind, H: Host<C>>(host: &H, cells: &mut [C], shape: Shape)
    requires { size_of shape.planes shape.side ≤ length cells.old }
    ensures { CellsBeaten C.eq (H.meaning host.now) shape.planes shape.side cells.old cells.new }
{
    let planes = shape.planes;
    let area = shape.area();
    let voted = shape.copies();
    let line = 2 * voted;
    let earlier = line + planes;
    vote_planes(cells, shape);
    ring_step(host, cells, 0, voted, planes, area);
    cells.copy_within(line..earlier, earlier);
    ring_step(host, cells, line, earlier, planes, 1);
}
