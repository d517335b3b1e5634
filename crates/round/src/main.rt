// Plays the round on standard input, or the rounds in the files that are named, and writes the report of each, or the line of its refusal.
// `within` holds an answer against the output, so no type of either could say it.
#![tactic(auto)]

ghost use Rattle.std.specs.Prelude.{◌≡◌, ◌+◌, ◌≤◌, length, take, Some, IfOk, IfSome, OnOk};
ghost use Rattle.plate.specs.Plates.{members};
ghost use Rattle.reports.specs.ReportCall.{report_bytes};
ghost use Rattle.rounds.specs.PlayCall.{entrant};
ghost use Rattle.rounds.specs.RoundFile.{max_round};
ghost use Rattle.round.specs.Answer.{Answered, AppendsReply, OneReplyEach, Replied};

use anyhow::anyhow;
use hosts::elementary::Elementary;
use hosts::machine::Machine;
use reports::report::REPORT_BYTES;
use rounds::entry::Entry;
use rounds::file_kind::FileKind;
use rounds::laws::rounds_pin;
use rounds::reply::reply;
use rounds::round::{MAX_ROUND, ROUND_CELLS, kind};
use std::alloc::{AllocError, Global};
use std::io::{Read, Write};
use std::{env, fs};
use toom::bit::Bit;
use toom::kind::Kind;
use toom::machine_cell::MachineCell;

// One byte more than the longest round has, so that a longer one is seen to be too long.
const INPUT_BYTES: usize = MAX_ROUND + 1;

// The input and the output, asked for once and lent to each round.
#[derive(Drop)]
struct Buffers {
    input: Vec<u8>,
    out: Vec<u8>,
    ghost input_bytes: { input.len ≡ max_round + 1 },
    ghost out_bytes: { out.len ≡ report_bytes },
}

impl Buffers {
    fn new(heap: Global) -> Result<Buffers, AllocError> {
        Ok(Buffers {
            input: vec![in heap; 0u8; INPUT_BYTES]?,
            out: vec![in heap; 0u8; REPORT_BYTES]?,
        })
    }
}

// Reads until the input ends or the buffer is full. By hand, since `read_to_end` allocates again once its buffer is full, under `take` too, and
// `read_exact` fails if the input ends before that.
fn fill<R: Read>(source: &mut R, buffer: &mut [u8]) -> anyhow::Result<usize>
    ensures front { IfOk result (λ n. IfSome (R.remaining source.old) (λ bytes. take n buffer.new ≡ take (length buffer.old) bytes)) }
    ensures within { IfOk result (λ n. n ≤ length buffer.new) }
    ensures long { length buffer.new ≡ length buffer.old }
{
    let mut len = 0;
    while len < buffer.len() {
        let got = source.read(&mut buffer[len..])?;
        if got == 0 {
            break;
        }
        len += got;
    }
    Ok(len)
}

// The reply of one kind of cell, over cells that are all the one of the byte 00.
fn reply_of<C: Kind + Clone, H: Entry<C>>(
    heap: Global,
    blank: C,
    file: &[u8],
    out: &mut [u8],
) -> anyhow::Result<usize>
    requires blank { C.cell_of 0 ≡ Some blank }
    requires clones { (cell : C) → C.is_clone blank cell → cell ≡ blank }
    ensures replied { IfOk result (λ n. Replied (members C.eq C.byte_of C.cell_of) (entrant H.kind H.questions H.is_in H.Host.meaning) file.now n out.old out.new) }
    ensures within { IfOk result (λ n. n ≤ length out.new) }
{
    let mut cells = vec![in heap; blank; ROUND_CELLS]?;
    reply::<C, H>(&mut cells, file, out).map_err(|_| anyhow!("the output is too short"))
}

// A file has one reply.
fn replies_pin()
    ensures { OneReplyEach }
{
    rounds_pin::<MachineCell, Machine>();
    rounds_pin::<Bit, Elementary>();
}

// The reply of the kind that the file says; the play of bits refuses a file of another number. A file has one reply.
fn answer(heap: Global, file: &[u8], out: &mut [u8]) -> anyhow::Result<usize>
    ensures answered { IfOk result (λ n. Answered file.now n out.old out.new) }
    ensures pinned { OneReplyEach }
    ensures within { IfOk result (λ n. n ≤ length out.new) }
{
    replies_pin();
    match kind(file) {
        FileKind::MachineCells => {
            let blank = MachineCell::from(0);
            reply_of::<MachineCell, Machine>(heap, blank, file, out)
        }
        FileKind::Bits | FileKind::Other(_) => {
            reply_of::<Bit, Elementary>(heap, Bit::Zero, file, out)
        }
    }
}

// Plays the round of one source, and writes the reply. What the round before has left in the buffers makes no difference.
fn play_from<R: Read, W: Write>(
    heap: Global,
    buffers: &mut Buffers,
    source: &mut R,
    sink: &mut W,
) -> anyhow::Result<()>
    ensures replies { OnOk result (IfSome (R.remaining source.old) (λ bytes. AppendsReply (take (max_round + 1) bytes) (W.contents sink.old) (W.contents sink.new))) }
{
    let Buffers { input, out } = buffers;
    let len = fill(source, input)?;
    let written = answer(heap, &input[..len], out)?;
    sink.write_all(&out[..written])?;
    Ok(())
}

// Plays the round of the file of this name, or of standard input for the name `-`.
fn play_named(rt: &HostRuntime, buffers: &mut Buffers, name: &str) -> anyhow::Result<()> {
    if name == "-" {
        play_from(rt.alloc(), buffers, &mut rt.stdin(), &mut rt.stdout())
    } else {
        let mut file = fs::open(rt, name)?;
        play_from(rt.alloc(), buffers, &mut file, &mut rt.stdout())
    }
}

// With no file named, the round comes from standard input.
fn run(rt: &HostRuntime) -> anyhow::Result<()> {
    let mut buffers = Buffers::new(rt.alloc())?;
    let names = env::args(rt)?.skip(1);
    if names.len() == 0 {
        return play_named(rt, &mut buffers, "-");
    }
    for name in names {
        play_named(rt, &mut buffers, &name)?;
    }
    Ok(())
}

fn main(rt: HostRuntime) -> anyhow::Result<()> {
    run(&rt)
}
