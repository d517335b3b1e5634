// The elementary host: one of Wolfram's 256 rules on bits.
ghost use Rattle.std.specs.Prelude.{◌≡◌, ◌<◌};
ghost use Rattle.hosts.specs.Elementary.{bit_number, wolfram};

use crate::host::Host;
use toom::bit::Bit;
use toom::kind::Kind;

#[derive(Clone, Copy)]
pub struct Elementary {
    // Wolfram's number. Its eight bits are the eight answers: left, centre and right, read in binary, say which one.
    pub rule: u8,
}

fn bit_number(left: Bit, centre: Bit, right: Bit) -> u8
    ensures value { result ≡ bit_number left centre right }
    ensures bound { result < 8 }
{
    4 * left.byte() + 2 * centre.byte() + right.byte()
}

impl Host<Bit> for Elementary {
    ghost meaning = { λ host. wolfram host.rule };

    fn answer(&self, left: Bit, centre: Bit, right: Bit) -> Bit
        ensures { result ≡ wolfram self.now.rule left centre right }
    {
        let number = bit_number(left, centre, right);
        Bit::from((self.rule >> number) % 2 == 1)
    }
}
