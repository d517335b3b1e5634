// A round, read in its file's own bytes.
ghost use Rattle.std.specs.Prelude.{◌≡◌, Some, None, MatchResult};
ghost use Rattle.rounds.specs.RoundFile.{kind_in, round_questions, round_fault, HeaderIn, RoundIn};

use crate::fault::RoundFault;
use crate::file_kind::FileKind;
use runs::script::word;

pub const HEADER_BYTES: usize = 9;

pub const MAX_ROUND: usize = 65_535;

// The most copies that a round may have.
pub const MAX_COPIES: usize = 16_384;

// Memory for every round: 16,384 copies, as many voted copies, and two lines of 4,096 cells.
pub const ROUND_CELLS: usize = 40_960;

#[derive(Clone, Copy)]
pub struct Round<'a> {
    pub planes: usize,
    pub side: usize,
    pub beats: u32,
    pub host: &'a [u8],
    pub tape: &'a [u8],
    pub script: &'a [u8],
}

// The kind of cell that a file says in its first two bits: 0 bits, 1 machine cells, 2 and 3 no host's. An empty file says bits.
pub fn kind(file: &[u8]) -> FileKind
    ensures { result ≡ kind_in file.now }
{
    FileKind::from(file.first().map_or(0, |first| *first >> 6))
}

// The fields of the header; `host` and `script` are lengths.
#[derive(Clone, Copy)]
struct Header {
    kind: FileKind,
    side: usize,
    planes: usize,
    beats: u32,
    host: usize,
    script: usize,
}

fn read_header(bytes: &[u8; HEADER_BYTES]) -> Header
    ensures { HeaderIn bytes.now result }
{
    let first = bytes[0];
    let rest = word(bytes, 1);
    Header {
        kind: FileKind::from(first >> 6),
        side: (first & 0x3F) as usize + 1,
        planes: (rest >> 52) as usize + 1,
        beats: (rest >> 32 & 0xFFFFF) as u32,
        host: (rest >> 16 & 0xFFFF) as usize,
        script: (rest & 0xFFFF) as usize,
    }
}

impl<'a> Round<'a> {
    // The round of a file of this kind, or the first question that fails.
    pub fn read(kind: FileKind, file: &'a [u8]) -> Result<Round<'a>, RoundFault>
        ensures { MatchResult result (λ x. (round_questions kind file.now ≡ None) × RoundIn file.now x) (λ e. round_questions kind file.now ≡ Some (round_fault e)) }
    {
        let Some((header, rest)) = file.split_first_chunk() else {
            return Err(RoundFault::Header);
        };
        let header = read_header(header);
        if header.kind != kind {
            return Err(RoundFault::Kind);
        }
        if rest.len() != header.host + header.planes + header.script || file.len() > MAX_ROUND {
            return Err(RoundFault::Length);
        }
        if header.planes * (header.side * header.side) > MAX_COPIES {
            return Err(RoundFault::Copies);
        }
        let (host, rest) = rest.split_at(header.host);
        let (tape, script) = rest.split_at(header.planes);
        Ok(Round {
            planes: header.planes,
            side: header.side,
            beats: header.beats,
            host,
            tape,
            script,
        })
    }
}
