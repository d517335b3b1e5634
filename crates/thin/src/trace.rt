// The printed text: the shadow after each vote, and how its thinning ends.
ghost use Rattle.std.specs.Prelude.{◌≡◌, ◌<◌, [], ◌∷◌, Some, IfOk, string_bytes, MatchOption};
ghost use Rattle.thin.specs.Picture.{Appended, mark, row_line, picture, count_line, frame};
ghost use Rattle.thin.specs.Trace.{Ends, GoesOn, Thinning, ThinningPins, ending_name, ending_line};
ghost use Rattle.toom.specs.Shadow.{marks, side_of_shadow, OnTorus};
ghost use Rattle.toom.specs.ShadowCalls.{Voted};

use std::alloc::{AllocError, Global};
use std::fmt;
use toom::laws::{marks_pin, only_the_torus_counts};
use toom::shadow::Shadow;

// How a thinning ends.
#[derive(Clone, Copy)]
enum Ending {
    Empty,
    Unchanged,
    StillChanging,
}

impl fmt::Display for Ending {
    ghost output = { λ ending. Some (ending_name ending) };

    fn fmt<W: fmt::Write>(&self, f: &mut fmt::Formatter<W>) -> fmt::Result {
        f.write_str(match self {
            Ending::Empty => "empty",
            Ending::Unchanged => "unchanged",
            Ending::StillChanging => "still changing",
        })
    }
}

fn mark_of(shadow: &Shadow, row: usize, column: usize) -> &'static str
    requires { OnTorus shadow.now row column }
    ensures { result.now ≡ mark (marks shadow.now row column) ∷ [] }
{
    if shadow.holds(row, column) == Some(true) {
        "s"
    } else {
        "."
    }
}

fn push_row(text: &mut String, shadow: &Shadow, row: usize) -> Result<(), AllocError>
    requires { row < side_of_shadow shadow.now }
    ensures { Appended text.old result text.new
        (row_line (side_of_shadow shadow.now) (marks shadow.now) row) }
{
    for column in 0..shadow.side() {
        text.push_str(mark_of(shadow, row, column))?;
    }
    text.push_str("\n")
}

fn push_picture(text: &mut String, shadow: &Shadow) -> Result<(), AllocError>
    ensures { Appended text.old result text.new
        (picture (side_of_shadow shadow.now) (marks shadow.now)) }
{
    for row in 0..shadow.side() {
        push_row(text, shadow, row)?;
    }
    Ok(())
}

fn push_count(text: &mut String, shadow: &Shadow) -> Result<(), AllocError>
    ensures { Appended text.old result text.new
        (count_line (side_of_shadow shadow.now) (marks shadow.now)) }
{
    let count = shadow.count();
    writeln!(text, "count {count}")
}

fn push_frame(text: &mut String, shadow: &Shadow) -> Result<(), AllocError>
    ensures { Appended text.old result text.new
        (frame (side_of_shadow shadow.now) (marks shadow.now)) }
{
    push_picture(text, shadow)?;
    push_count(text, shadow)
}

fn push_ending(text: &mut String, ending: Ending, votes: usize) -> Result<(), AllocError>
    ensures { Appended text.old result text.new (ending_line ending votes) }
{
    writeln!(text, "{ending} after {votes} votes")
}

// Votes the shadow to which a thinning has come by so many votes. Says how the thinning ends there, or nothing if it goes on.
fn vote_or_end(shadow: &mut Shadow, votes: usize) -> Option<Ending>
    ensures after { Voted shadow.old shadow.new }
    ensures cases { MatchOption result
        (GoesOn (side_of_shadow shadow.old) (marks shadow.old) votes)
        (Ends (side_of_shadow shadow.old) (marks shadow.old) votes) }
{
    marks_pin();
    let before = *shadow;
    shadow.vote();
    if before.count() == 0 {
        Some(Ending::Empty)
    } else if *shadow == before {
        Some(Ending::Unchanged)
    } else if votes == before.side() * before.side() {
        Some(Ending::StillChanging)
    } else {
        None
    }
}

pub fn thinning(heap: Global, mut shadow: Shadow) -> Result<String, AllocError>
    ensures text { IfOk result
        (λ text. Thinning (side_of_shadow shadow) (marks shadow) (string_bytes text)) }
    ensures pinned { ThinningPins }
{
    only_the_torus_counts();
    let mut text = String::new(heap);
    let mut votes = 0;
    loop {
        push_frame(&mut text, &shadow)?;
        if let Some(ending) = vote_or_end(&mut shadow, votes) {
            push_ending(&mut text, ending, votes)?;
            return Ok(text);
        }
        votes += 1;
    }
}
