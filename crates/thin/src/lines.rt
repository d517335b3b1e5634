// The lines of a text.
ghost use Rattle.std.specs.Prelude.{◌≡◌, ◌∷◌, length};
ghost use Rattle.std.specs.Iterator.{at_most};
ghost use Rattle.std.specs.List.{position};
ghost use Rattle.std.specs.Option.{option_map};
ghost use Rattle.thin.specs.Lines.{LineGiven, lines_left};
ghost use Rattle.thin.specs.Words.{ends_line, lines, later_lines};

// Where the first line ends, if a line end stands there.
fn line_end(text: &[u8]) -> Option<usize>
    ensures { result ≡ position ends_line text.now }
{
    text.iter().position(|byte| *byte == b'\n')
}

// The first line, and what follows its end if it has one.
pub(crate) fn cut_line(text: &[u8]) -> (&[u8], Option<&[u8]>)
    ensures { lines text.now ≡ result.0.now ∷ later_lines (option_map (λ x. x.now) result.1) }
{
    match line_end(text) {
        Some(end) => (&text[..end], Some(&text[end + 1..])),
        None => (text, None),
    }
}

// Gives the lines of what is left to read, which is nothing after the last line.
#[derive(Drop)]
pub(crate) struct Lines<'a> {
    pub(crate) rest: Option<&'a [u8]>,
}

impl<'a> Iterator for Lines<'a> {
    type Item = &'a [u8];

    ghost next_gives = { λ s r t. LineGiven s r t };

    ghost remaining = { λ s. at_most (length (lines_left s)) };

    fn next(&mut self) -> Option<&'a [u8]> {
        let (line, rest) = cut_line(self.rest?);
        self.rest = rest;
        Some(line)
    }
}
