// Beats of the wounds and the line alone: the strands of the wounds and the line stand for a whole memory, which the last beat writes out.
ghost use Rattle.std.specs.Prelude.{◌≡◌, ◌≤◌, Bool, List, length};
ghost use Rattle.toom.specs.Shadow.{marks};
ghost use Rattle.toom.specs.Torus.{Plane};
ghost use Rattle.plate.specs.BeatCall.{CellsBeaten};
ghost use Rattle.plate.specs.BeatsCall.{CellsBeatenBy};
ghost use Rattle.plate.specs.Beside.{Beside};
ghost use Rattle.plate.specs.Layout.{size_of};
ghost use Rattle.plate.specs.Wounds.{BeatenFor, BeatenTimes, Clear, Covers, LineOutside, LineSteps, StandFor};

use crate::beside::beside_of;
use crate::resting::{spread_line, vote_lying};
use crate::settling::{settle, write_planes};
use crate::shape::Shape;
use crate::strands::{gather, step_strands, vote_strands};
use crate::sweep::{beat_cells, step_ring};
use hosts::host::Host;
use toom::kind::Kind;
use toom::laws::vote_heals;
use toom::shadow::Shadow;

// The line is kept as the earlier line, and steps from there.
fn step_line<C: Kind, H: Host<C>>(host: &H, cells: &mut [C], shape: Shape)
    requires { size_of shape.planes shape.side ≤ length cells.old }
    ensures { LineSteps (H.meaning host.now) shape.planes shape.side cells.old cells.new }
{
    let line = 2 * shape.copies();
    let earlier = line + shape.planes;
    cells.copy_within(line..earlier, earlier);
    step_ring(host, cells, line, earlier, shape.planes);
}

// One beat: the strands of the wounds that there are later are voted, and the line and they step.
fn beat_strands<C: Kind, H: Host<C>>(
    host: &H,
    cells: &mut [C],
    shape: Shape,
    wounds: &Shadow,
    later: &Shadow,
)
    requires cells { size_of shape.planes shape.side ≤ length cells.old }
    requires side { wounds.now.side ≡ shape.side }
    requires later { later.now.side ≡ shape.side }
    requires covers { Covers shape.side (marks wounds.now) (marks later.now) }
    ensures { BeatenFor C.eq (H.meaning host.now) shape.planes shape.side
        (marks wounds.now) cells.old (marks later.now) cells.new }
{
    vote_heals::<C>();
    vote_strands(cells, shape, wounds, later);
    step_line(host, cells, shape);
    step_strands(host, cells, shape, later);
}

// Beats of the line alone, where nothing is wounded.
fn line_beats<C: Kind, H: Host<C>>(host: &H, cells: &mut [C], shape: Shape, times: u32)
    requires { size_of shape.planes shape.side ≤ length cells.old }
    ensures { (wounds : Plane Bool) → Clear shape.side wounds
        → BeatenTimes C.eq (H.meaning host.now) shape.planes shape.side times
        wounds cells.old wounds cells.new }
{
    vote_heals::<C>();
    for _ in 0..times {
        step_line(host, cells, shape);
    }
}

// One beat while the wounds rest: the line is written to the strands beside them, theirs are voted as they lie, and the line and they step.
fn beat_resting<C: Kind, H: Host<C>>(
    host: &H,
    cells: &mut [C],
    shape: Shape,
    wounds: &Shadow,
    beside: &Shadow,
)
    requires cells { size_of shape.planes shape.side ≤ length cells.old }
    requires side { wounds.now.side ≡ shape.side }
    requires beside_side { beside.now.side ≡ shape.side }
    requires beside { Beside shape.side (marks wounds.now) (marks beside.now) }
    requires covers { Covers shape.side (marks wounds.now) (marks wounds.now) }
    ensures { BeatenFor C.eq (H.meaning host.now) shape.planes shape.side
        (marks wounds.now) cells.old (marks wounds.now) cells.new }
{
    vote_heals::<C>();
    spread_line(cells, shape, beside);
    vote_lying(cells, shape, wounds);
    step_line(host, cells, shape);
    step_strands(host, cells, shape, wounds);
}

// Beats while the wounds rest, which is where their vote leaves them as they are.
fn resting_beats<C: Kind, H: Host<C>>(
    host: &H,
    cells: &mut [C],
    shape: Shape,
    wounds: &Shadow,
    times: u32,
)
    requires cells { size_of shape.planes shape.side ≤ length cells.old }
    requires side { wounds.now.side ≡ shape.side }
    requires covers { Covers shape.side (marks wounds.now) (marks wounds.now) }
    ensures { BeatenTimes C.eq (H.meaning host.now) shape.planes shape.side times
        (marks wounds.now) cells.old (marks wounds.now) cells.new }
{
    if wounds.is_empty() {
        line_beats(host, cells, shape, times);
        return;
    }
    let beside = beside_of(wounds);
    for _ in 0..times {
        beat_resting(host, cells, shape, wounds, &beside);
    }
}

// The last beat, of the memory that the cells stand for: it leaves every copy and every vote.
fn last_beat<C: Kind, H: Host<C>>(host: &H, cells: &mut [C], shape: Shape, wounds: &Shadow)
    requires cells { size_of shape.planes shape.side ≤ length cells.old }
    requires side { wounds.now.side ≡ shape.side }
    ensures { (whole : List C) → StandFor (marks wounds.now) shape.planes shape.side cells.old whole
        → CellsBeaten C.eq (H.meaning host.now) shape.planes shape.side whole cells.new }
{
    vote_heals::<C>();
    if wounds.is_empty() {
        let copies = shape.copies();
        let line = 2 * copies;
        step_line(host, cells, shape);
        write_planes(cells, shape, 0, line);
        write_planes(cells, shape, copies, line + shape.planes);
        return;
    }
    settle(cells, shape, wounds);
    beat_cells(host, cells, shape);
}

// Beats at least once and at most as often as told, and says how often: fewer times only where the wounds come to be more than are `few`. All wounds
// of the cells are among those handed in.
pub(crate) fn quick_beats<C: Kind, H: Host<C>>(
    host: &H,
    cells: &mut [C],
    shape: Shape,
    wounds: Shadow,
    few: usize,
    most: u32,
) -> u32
    requires cells { size_of shape.planes shape.side ≤ length cells.old }
    requires some { 1 ≤ most }
    requires side { wounds.side ≡ shape.side }
    requires within { LineOutside (marks wounds) shape.planes shape.side cells.old }
    ensures some { 1 ≤ result }
    ensures most { result ≤ most }
    ensures beaten { CellsBeatenBy C.eq (H.meaning host.now) shape.planes shape.side result
        cells.old cells.new }
{
    let mut wounds = wounds;
    let mut left = most - 1;
    gather(cells, shape, &wounds);
    while left > 0 && wounds.count() <= few {
        let mut later = wounds;
        later.vote();
        if later == wounds {
            resting_beats(host, cells, shape, &wounds, left);
            left = 0;
        } else {
            beat_strands(host, cells, shape, &wounds, &later);
            wounds = later;
            left -= 1;
        }
    }
    last_beat(host, cells, shape, &wounds);
    most - left
}
