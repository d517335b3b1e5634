// A record of a script: a strike, and the number of beats after which it comes.
ghost use Rattle.std.specs.Prelude.{◌≡◌};
ghost use Rattle.runs.specs.Script.{record_of};

use plate::strike::Strike;

#[derive(Clone, Copy, PartialEq, Eq, Debug)]
pub struct Record {
    // 0: before the first beat.
    pub number: u32,
    pub strike: Strike,
    // The last 12 bits. They have to be zero.
    pub spare: u16,
}

impl Record {
    // The fields of a word, from its highest bit.
    pub fn decode(word: u64) -> Record
        ensures { result ≡ record_of word }
    {
        Record {
            number: (word >> 44) as u32,
            strike: Strike {
                plane: (word >> 32 & 0xFFF) as usize,
                row: (word >> 26 & 0x3F) as usize,
                column: (word >> 20 & 0x3F) as usize,
                byte: (word >> 12 & 0xFF) as u8,
            },
            spare: (word & 0xFFF) as u16,
        }
    }
}
