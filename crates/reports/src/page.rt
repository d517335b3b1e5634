// The lines of a report.
ghost use Rattle.std.specs.Prelude.{◌≡◌, ◌*◌, ◌<◌, ◌≤◌, length, slice_index};
ghost use Rattle.toom.specs.Shadow.{marks, side_of_shadow};
ghost use Rattle.toom.specs.Torus.{total};
ghost use Rattle.plate.specs.Board.{side_of};
ghost use Rattle.reports.specs.Page.{marked_line, page_of, reading_line};
ghost use Rattle.reports.specs.Report.{number_line, place_mark, rows, tape_line};
ghost use Rattle.reports.specs.Text.{Fits, Appends};

use crate::text::Text;
use plate::laid::Laid;
use toom::shadow::Shadow;

fn number_line(text: &mut Text<'_>, word: &str, n: usize)
    requires { Fits text.old (number_line word.now n) }
    ensures { Appends text.old (number_line word.now n) text.new }
{
    text.push_str(word);
    text.push_decimal(n);
    text.end_line();
}

fn place_mark(hurt: u16, shadowed: bool) -> u8
    ensures { result ≡ place_mark hurt shadowed }
{
    if hurt > 0 {
        b'#'
    } else if shadowed {
        b's'
    } else {
        b'.'
    }
}

// The marks of a row, whose part of the map this is.
fn row_line(text: &mut Text<'_>, hurts: &[u16], shadow: &Shadow, row: usize)
    requires map { length hurts.now ≡ side_of_shadow shadow.now }
    requires row { row < side_of_shadow shadow.now }
    requires room { Fits text.old (marked_line hurts.now shadow.now row) }
    ensures { Appends text.old (marked_line hurts.now shadow.now row) text.new }
{
    for (column, hurt) in hurts.iter().enumerate() {
        let shadowed = shadow.holds(row, column).unwrap_or(false);
        text.push(place_mark(*hurt, shadowed));
    }
    text.end_line();
}

// The marks, row by row.
fn rows(text: &mut Text<'_>, hurts: &[u16], shadow: &Shadow)
    requires map { length hurts.now ≡ side_of_shadow shadow.now * side_of_shadow shadow.now }
    requires room { Fits text.old (rows (side_of_shadow shadow.now) (λ j. slice_index hurts.now j) (marks shadow.now)) }
    ensures { Appends text.old (rows (side_of_shadow shadow.now) (λ j. slice_index hurts.now j) (marks shadow.now)) text.new }
{
    for (row, row_hurts) in hurts.chunks_exact(shadow.side()).enumerate() {
        row_line(text, row_hurts, shadow, row);
    }
}

fn tape_line(text: &mut Text<'_>, tape: &[u8])
    requires { Fits text.old (tape_line tape.now) }
    ensures { Appends text.old (tape_line tape.now) text.new }
{
    text.push_str("tape ");
    for byte in tape {
        text.push_pair(*byte);
    }
    text.end_line();
}

// The reading, or the first plane that has no majority.
fn last_line(text: &mut Text<'_>, reading: Result<&[u8], usize>)
    requires { Fits text.old (reading_line reading) }
    ensures { Appends text.old (reading_line reading.entry) text.new }
{
    match reading {
        Ok(tape) => tape_line(text, tape),
        Err(plane) => number_line(text, "no majority ", plane),
    }
}

// The sum of the map.
fn sum(hurts: &[u16]) -> usize
    requires { length hurts.now ≤ 4096 }
    ensures { result ≡ total (λ j. slice_index hurts.now j) (length hurts.now) }
{
    hurts.iter().map(|hurt| usize::from(*hurt)).sum()
}

// The whole report of a plate: what it keeps beside its cells, its map, and its reading or the first plane that has no majority.
pub(crate) fn page(text: &mut Text<'_>, laid: &Laid, hurts: &[u16], reading: Result<&[u8], usize>)
    requires map { length hurts.now ≡ side_of laid.now * side_of laid.now }
    requires room { Fits text.old (page_of laid.now hurts.now reading) }
    ensures { Appends text.old (page_of laid.now hurts.now reading.entry) text.new }
{
    number_line(text, "age ", laid.age as usize);
    number_line(text, "shadow ", laid.shadow.count());
    number_line(text, "hurt ", sum(hurts));
    rows(text, hurts, &laid.shadow);
    last_line(text, reading);
}
