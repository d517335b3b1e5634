// The reader of a script: each call gives the next record, decoded where it lies in the caller's slice.
ghost use Rattle.std.specs.Prelude.{◌≡◌, ◌+◌, ◌-◌, ◌*◌, ◌≤◌, length};
ghost use Rattle.runs.specs.Bytes.{number_at};
ghost use Rattle.runs.specs.Script.{records_in, Yields};
ghost use Rattle.std.specs.Iterator.{at_most};

use crate::record::Record;

// The bytes of one record.
pub const RECORD_BYTES: usize = 8;

// The slice and an index, which the clauses of `new` name.
#[derive(Drop)]
pub struct Script<'a> {
    bytes: &'a [u8],
    // The next record to be read, counted from 0.
    index: usize,
}

impl<'a> Script<'a> {
    // From the first record on.
    pub fn new(bytes: &'a [u8]) -> Script<'a>
        ensures bytes { result.bytes.now ≡ bytes.now }
        ensures first { result.index ≡ 0 }
    {
        Script { bytes, index: 0 }
    }
}

// The next record, or none after the last whole one.
impl<'a> Iterator for Script<'a> {
    type Item = Record;

    ghost next_gives = { λ s r t. Yields s r t };

    ghost remaining = { λ s. at_most (records_in s.bytes.now - s.index) };

    fn next(&mut self) -> Option<Record> {
        if self.index >= self.bytes.len() / RECORD_BYTES {
            return None;
        }
        let record = Record::decode(word(self.bytes, RECORD_BYTES * self.index));
        self.index += 1;
        Some(record)
    }
}

// The eight bytes from this one on, as one word, the first byte the highest.
pub fn word(bytes: &[u8], at: usize) -> u64
    requires { at + 8 ≤ length bytes.now }
    ensures { result ≡ number_at bytes.now at 8 }
{
    u64::from_be_bytes(*bytes[at..].first_chunk().unwrap())
}
