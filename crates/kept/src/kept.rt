// The reader of a kept file: each call gives the next round, as parts of the caller's slice.
ghost use Rattle.std.specs.Prelude.{◌≡◌, length};
ghost use Rattle.std.specs.Iterator.{at_most};
ghost use Rattle.kept.specs.KeptFile.{StringCut, RoundCut, PairsPin, Yields};

use thiserror::Error;

// A round file, and the reply that is kept for it.
#[derive(Clone, Copy)]
pub struct KeptRound<'a> {
    pub file: &'a [u8],
    pub reply: &'a [u8],
}

// No whole round stands where the next should be.
#[derive(Clone, Copy, Debug, PartialEq, Eq, Error)]
#[error("the kept file is cut off within a round")]
pub struct CutOff;

// The bytes that are left to read, which the clauses name. After a round that is cut off none are left.
#[derive(Drop)]
pub struct Kept<'a> {
    rest: &'a [u8],
}

impl<'a> Kept<'a> {
    // From the first round on.
    pub fn new(bytes: &'a [u8]) -> Kept<'a>
        ensures rest { result.rest.now ≡ bytes.now }
        ensures pinned { PairsPin }
    {
        Kept { rest: bytes }
    }
}

// The byte string at the front, and what follows it.
fn cut_string(bytes: &[u8]) -> Option<(&[u8], &[u8])>
    ensures { StringCut bytes.now result }
{
    let (length, rest) = bytes.split_first_chunk()?;
    rest.split_at_checked(u32::from_be_bytes(*length) as usize)
}

// The round at the front, and what follows it.
fn cut_round(bytes: &[u8]) -> Option<(KeptRound<'_>, &[u8])>
    ensures { RoundCut bytes.now result }
{
    let (file, rest) = cut_string(bytes)?;
    let (reply, rest) = cut_string(rest)?;
    Some((KeptRound { file, reply }, rest))
}

impl<'a> Iterator for Kept<'a> {
    type Item = Result<KeptRound<'a>, CutOff>;

    ghost next_gives = { λ s r t. Yields s r t };

    ghost remaining = { λ s. at_most (length s.rest.now) };

    fn next(&mut self) -> Option<Result<KeptRound<'a>, CutOff>> {
        if self.rest.is_empty() {
            return None;
        }
        match cut_round(self.rest) {
            Some((round, rest)) => {
                self.rest = rest;
                Some(Ok(round))
            }
            None => {
                self.rest = &[];
                Some(Err(CutOff))
            }
        }
    }
}
