// Many beats of a plate's cells at once: of the wounds and the line alone where the wounds are few, else of all cells.
ghost use Rattle.std.specs.Prelude.{◌≤◌, length};
ghost use Rattle.plate.specs.BeatsCall.{CellsBeatenBy};
ghost use Rattle.plate.specs.Layout.{size_of};

use crate::quick::quick_beats;
use crate::shape::Shape;
use crate::sweep::beat_cells;
use crate::wounds::{most_wounds, wounds_of};
use hosts::host::Host;
use toom::kind::Kind;

// At most so many beats of the wounds alone before they are looked for again: copies may come to agree with the line, which the vote of a set of
// places does not tell.
const LONGEST: u32 = 8192;

// So many beats of all cells come before the wounds are looked for again at first, and then twice as many, up to the last.
const FIRST_SPAN: u32 = 8;

const LAST_SPAN: u32 = 1024;

// To look for wounds takes longer than so few beats of all cells.
const FEW: u32 = 2;

// Beats of all cells, one after another.
fn dense_beats<C: Kind, H: Host<C>>(host: &H, cells: &mut [C], shape: Shape, times: u32)
    requires { size_of shape.planes shape.side ≤ length cells.old }
    ensures { CellsBeatenBy C.eq (H.meaning host.now) shape.planes shape.side times
        cells.old cells.new }
{
    for _ in 0..times {
        beat_cells(host, cells, shape);
    }
}

// Beats of the wounds alone as long as they are few, at most as many as told. It says how many.
fn beats_by_wounds<C: Kind, H: Host<C>>(host: &H, cells: &mut [C], shape: Shape, most: u32) -> u32
    requires some { 1 ≤ most }
    requires cells { size_of shape.planes shape.side ≤ length cells.old }
    ensures most { result ≤ most }
    ensures beaten { CellsBeatenBy C.eq (H.meaning host.now) shape.planes shape.side result
        cells.old cells.new }
{
    let Some(few) = most_wounds(shape, most) else {
        return 0;
    };
    let Some(wounds) = wounds_of(cells, shape, few) else {
        return 0;
    };
    quick_beats(host, cells, shape, wounds, few, most)
}

// Beats from one look for wounds to the next, at least one and at most as many as told: of the wounds alone, and then up to `span` of all cells. It
// says how many.
fn beats_of_a_look<C: Kind, H: Host<C>>(
    host: &H,
    cells: &mut [C],
    shape: Shape,
    most: u32,
    span: u32,
) -> u32
    requires some { 1 ≤ most }
    requires span { 1 ≤ span }
    requires cells { size_of shape.planes shape.side ≤ length cells.old }
    ensures some { 1 ≤ result }
    ensures most { result ≤ most }
    ensures beaten { CellsBeatenBy C.eq (H.meaning host.now) shape.planes shape.side result
        cells.old cells.new }
{
    let quick = beats_by_wounds(host, cells, shape, most);
    let dense = span.min(most - quick);
    dense_beats(host, cells, shape, dense);
    quick + dense
}

// Beats the cells as often as told.
pub(crate) fn many_beats<C: Kind, H: Host<C>>(host: &H, cells: &mut [C], shape: Shape, times: u32)
    requires { size_of shape.planes shape.side ≤ length cells.old }
    ensures { CellsBeatenBy C.eq (H.meaning host.now) shape.planes shape.side times
        cells.old cells.new }
{
    if times <= FEW {
        dense_beats(host, cells, shape, times);
        return;
    }
    let mut left = times;
    let mut span = FIRST_SPAN;
    while left > 0 {
        let most = left.min(LONGEST);
        let done = beats_of_a_look(host, cells, shape, most, span);
        left -= done;
        span = if done > span {
            FIRST_SPAN
        } else {
            (2 * span).min(LAST_SPAN)
        };
    }
}
