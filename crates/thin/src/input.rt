// The shadow that a text describes: its side on the first line, then a place a line.
ghost use Rattle.std.specs.Prelude.{◌≡◌, not, Some};
ghost use Rattle.std.specs.List.{position};
ghost use Rattle.thin.specs.Fault.{cause_text, fault_text};
ghost use Rattle.thin.specs.Input.{Reads};
ghost use Rattle.thin.specs.InputCalls.{WordCut, NumberRead, SideRead, PlaceMarked};
ghost use Rattle.thin.specs.Words.{is_blank};

use crate::lines::{Lines, cut_line};
use std::fmt;
use toom::shadow::Shadow;

// What is wrong with a line.
#[derive(Clone, Copy)]
pub enum Cause {
    NoSide,
    WordCount,
    NoNumber,
    SideRange,
    OffTorus,
}

// The first line that is wrong, counted from 1, and what is wrong with it.
#[derive(Clone, Copy)]
pub struct InputFault {
    pub line: usize,
    pub cause: Cause,
}

impl fmt::Display for Cause {
    ghost output = { λ cause. Some (cause_text cause) };

    fn fmt<W: fmt::Write>(&self, f: &mut fmt::Formatter<W>) -> fmt::Result {
        let message = match self {
            Cause::NoSide => "the side of the torus is missing",
            Cause::WordCount => "the number of words is wrong",
            Cause::NoNumber => "a word is not a decimal number",
            Cause::SideRange => "the side is not from 2 to 64",
            Cause::OffTorus => "the place is not on the torus",
        };
        f.write_str(message)
    }
}

impl fmt::Display for InputFault {
    ghost output = { λ fault. Some (fault_text fault) };

    fn fmt<W: fmt::Write>(&self, f: &mut fmt::Formatter<W>) -> fmt::Result {
        let line = self.line;
        let cause = self.cause;
        write!(f, "line {line}: {cause}")
    }
}

fn blank_byte(byte: u8) -> bool
    ensures { result ≡ is_blank byte }
{
    byte == b' ' || byte == b'\t' || byte == b'\r'
}

// Where the first word begins, if there is one.
fn word_start(line: &[u8]) -> Option<usize>
    ensures { result ≡ position (λ b. not (is_blank b)) line.now }
{
    line.iter().position(|byte| !blank_byte(*byte))
}

// Where the first blank stands, if there is one.
fn word_end(line: &[u8]) -> Option<usize>
    ensures { result ≡ position is_blank line.now }
{
    line.iter().position(|byte| blank_byte(*byte))
}

// The first word of a line, and what follows it.
fn cut_word(line: &[u8]) -> Option<(&[u8], &[u8])>
    ensures { WordCut line.now result }
{
    let start = &line[word_start(line)?..];
    match word_end(start) {
        Some(end) => Some((&start[..end], &start[end..])),
        None => Some((start, &[])),
    }
}

// The number that a word names, or the largest `usize` for one that is larger. By hand: `parse` takes a word such as +4, and refuses a number
// that is too large, which is out of range here.
fn number(word: &[u8]) -> Result<usize, Cause>
    ensures { NumberRead word.now result }
{
    let mut number = 0usize;
    for byte in word {
        if !byte.is_ascii_digit() {
            return Err(Cause::NoNumber);
        }
        number = number
            .saturating_mul(10)
            .saturating_add((*byte - b'0') as usize);
    }
    Ok(number)
}

// The empty shadow of the side that a line says.
fn read_side(line: &[u8]) -> Result<Shadow, Cause>
    ensures { SideRead line.now result }
{
    let Some((side, rest)) = cut_word(line) else {
        return Err(Cause::NoSide);
    };
    if cut_word(rest).is_some() {
        return Err(Cause::WordCount);
    }
    Shadow::empty(number(side)?).ok_or(Cause::SideRange)
}

// Marks the place that a line says, if it says one.
fn mark_place(shadow: &mut Shadow, line: &[u8]) -> Result<(), Cause>
    ensures { PlaceMarked shadow.old line.now result shadow.new }
{
    let Some((row, rest)) = cut_word(line) else {
        return Ok(());
    };
    let Some((column, rest)) = cut_word(rest) else {
        return Err(Cause::WordCount);
    };
    if cut_word(rest).is_some() {
        return Err(Cause::WordCount);
    }
    shadow
        .add(number(row)?, number(column)?)
        .map_err(|_| Cause::OffTorus)
}

pub fn read_shadow(text: &[u8]) -> Result<Shadow, InputFault>
    ensures { Reads text.now result }
{
    let (first, rest) = cut_line(text);
    let mut shadow = read_side(first).map_err(|cause| InputFault { line: 1, cause })?;
    for (index, place) in (Lines { rest }).enumerate() {
        let line = index + 2;
        mark_place(&mut shadow, place).map_err(|cause| InputFault { line, cause })?;
    }
    Ok(shadow)
}
