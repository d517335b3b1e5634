// The play of a whole kept file.
ghost use Rattle.std.specs.Prelude.{Some, IfOk};
ghost use Rattle.kept.specs.Count.{Tallies, tally_text};

use crate::kept::Kept;
use crate::player::Player;
use std::fmt;
use std::io::Write;

// How many rounds there are, and how many of them are replied to as is kept.
#[derive(Clone, Copy)]
pub struct Tally {
    pub rounds: usize,
    pub agreeing: usize,
}

impl fmt::Display for Tally {
    ghost output = { λ tally. Some (tally_text tally) };

    fn fmt<W: fmt::Write>(&self, f: &mut fmt::Formatter<W>) -> fmt::Result {
        let Tally { rounds, agreeing } = *self;
        write!(f, "{agreeing} of {rounds} rounds agree")
    }
}

// Plays the rounds of a kept file in order, and writes a line for each that does not agree, with its index from 0.
pub fn play_all<W: Write>(
    player: &mut Player,
    packed: &[u8],
    lines: &mut W,
) -> anyhow::Result<Tally>
    ensures { IfOk result (λ tally. Tallies packed.now tally) }
{
    let mut tally = Tally {
        rounds: 0,
        agreeing: 0,
    };
    for round in Kept::new(packed) {
        if player.agrees(&round?) {
            tally.agreeing += 1;
        } else {
            let index = tally.rounds;
            writeln!(lines, "round {index} does not agree")?;
        }
        tally.rounds += 1;
    }
    Ok(tally)
}
