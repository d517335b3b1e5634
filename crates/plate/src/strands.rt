// The strands of all places of a set, stretch by stretch: written from the copies, voted, and stepped.
ghost use Rattle.std.specs.Prelude.{◌≡◌, ◌+◌, ◌<◌, ◌≤◌, length};
ghost use Rattle.toom.specs.Shadow.{marks};
ghost use Rattle.plate.specs.Layout.{size_of};
ghost use Rattle.plate.specs.Wounds.{InStretch, Marked, StrandsGathered, StrandsStepped, StrandsVoted};

use crate::shape::Shape;
use crate::strand::{gather_strand, step_ends, step_strand, vote_strand};
use crate::sweep::fill;
use hosts::host::Host;
use toom::kind::Kind;
use toom::shadow::Shadow;
use toom::shadow::stretches::Stretch;

// The strands of a stretch are written from the copies.
fn gather_stretch<C: Kind>(cells: &mut [C], shape: Shape, stretch: Stretch)
    requires cells { size_of shape.planes shape.side ≤ length cells.old }
    requires row { stretch.row < shape.side }
    requires columns { stretch.column + stretch.length ≤ shape.side }
    ensures { StrandsGathered shape.planes shape.side (InStretch stretch) cells.old cells.new }
{
    for column in stretch.column..stretch.column + stretch.length {
        gather_strand(cells, shape, stretch.row, column);
    }
}

// The strands of the wounds are written from the copies.
pub(crate) fn gather<C: Kind>(cells: &mut [C], shape: Shape, wounds: &Shadow)
    requires cells { size_of shape.planes shape.side ≤ length cells.old }
    requires side { wounds.now.side ≡ shape.side }
    ensures { StrandsGathered shape.planes shape.side (Marked (marks wounds.now))
        cells.old cells.new }
{
    for stretch in wounds.stretches() {
        gather_stretch(cells, shape, stretch);
    }
}

// Votes the strands of a stretch.
fn vote_stretch<C: Kind>(cells: &mut [C], shape: Shape, wounds: &Shadow, stretch: Stretch)
    requires cells { size_of shape.planes shape.side ≤ length cells.old }
    requires side { wounds.now.side ≡ shape.side }
    requires row { stretch.row < shape.side }
    requires columns { stretch.column + stretch.length ≤ shape.side }
    ensures { StrandsVoted C.eq (marks wounds.now) shape.planes shape.side (InStretch stretch)
        cells.old cells.new }
{
    for column in stretch.column..stretch.column + stretch.length {
        vote_strand(cells, shape, wounds, stretch.row, column);
    }
}

// Votes the strands of `later`, as the planes are seen while the wounds are kept.
pub(crate) fn vote_strands<C: Kind>(cells: &mut [C], shape: Shape, wounds: &Shadow, later: &Shadow)
    requires cells { size_of shape.planes shape.side ≤ length cells.old }
    requires side { wounds.now.side ≡ shape.side }
    requires later { later.now.side ≡ shape.side }
    ensures { StrandsVoted C.eq (marks wounds.now) shape.planes shape.side
        (Marked (marks later.now)) cells.old cells.new }
{
    for stretch in later.stretches() {
        vote_stretch(cells, shape, wounds, stretch);
    }
}

// Steps the strands of a stretch from their votes, each by itself.
fn step_each<C: Kind, H: Host<C>>(host: &H, cells: &mut [C], shape: Shape, stretch: Stretch)
    requires cells { size_of shape.planes shape.side ≤ length cells.old }
    requires row { stretch.row < shape.side }
    requires columns { stretch.column + stretch.length ≤ shape.side }
    ensures { StrandsStepped (H.meaning host.now) shape.planes shape.side (InStretch stretch)
        cells.old cells.new }
{
    for column in stretch.column..stretch.column + stretch.length {
        step_strand(host, cells, shape, stretch.row, column);
    }
}

// Steps the strands of a stretch in one sweep, as if they were one, which takes least time where there are several. In it the ends of a strand have
// neighbours in the strands beside it: so they are stepped again.
fn step_swept<C: Kind, H: Host<C>>(host: &H, cells: &mut [C], shape: Shape, stretch: Stretch)
    requires planes { 2 ≤ shape.planes }
    requires cells { size_of shape.planes shape.side ≤ length cells.old }
    requires row { stretch.row < shape.side }
    requires some { 1 ≤ stretch.length }
    requires columns { stretch.column + stretch.length ≤ shape.side }
    ensures { StrandsStepped (H.meaning host.now) shape.planes shape.side (InStretch stretch)
        cells.old cells.new }
{
    let from = (stretch.row * shape.side + stretch.column) * shape.planes;
    let to = shape.copies() + from;
    let count = stretch.length * shape.planes;
    fill(host, cells, to + 1, from, from + 1, from + 2, count - 2);
    for column in stretch.column..stretch.column + stretch.length {
        step_ends(host, cells, shape, stretch.row, column);
    }
}

// Steps the strands of a stretch from their votes.
fn step_stretch<C: Kind, H: Host<C>>(host: &H, cells: &mut [C], shape: Shape, stretch: Stretch)
    requires cells { size_of shape.planes shape.side ≤ length cells.old }
    requires row { stretch.row < shape.side }
    requires columns { stretch.column + stretch.length ≤ shape.side }
    ensures { StrandsStepped (H.meaning host.now) shape.planes shape.side (InStretch stretch)
        cells.old cells.new }
{
    if shape.planes < 3 || stretch.length < 2 {
        step_each(host, cells, shape, stretch);
    } else {
        step_swept(host, cells, shape, stretch);
    }
}

// Steps the strands of the wounds from their votes.
pub(crate) fn step_strands<C: Kind, H: Host<C>>(
    host: &H,
    cells: &mut [C],
    shape: Shape,
    wounds: &Shadow,
)
    requires cells { size_of shape.planes shape.side ≤ length cells.old }
    requires side { wounds.now.side ≡ shape.side }
    ensures { StrandsStepped (H.meaning host.now) shape.planes shape.side
        (Marked (marks wounds.now)) cells.old cells.new }
{
    for stretch in wounds.stretches() {
        step_stretch(host, cells, shape, stretch);
    }
}
