// What a play refuses: number, word and place of each refusal, and the order of the questions.
use crate::files::{BEAVER, BEAVER_CELLS, SAMPLE, SAMPLE_CELLS};
use crate::outputs::{FILL, ROOM, check_untouched};
use hosts::elementary::Elementary;
use hosts::machine::Machine;
use rounds::entry::Entry;
use rounds::play::play;
use rounds::refusal::{Refusal, Word};
use std::process::Abort;
use std::test::Fail;
use toom::bit::Bit;
use toom::kind::Kind;
use toom::machine_cell::MachineCell;

// An output that is one byte too short.
const SHORT: usize = 12_395;

// The most bytes that a file of a table has.
const FILE: usize = 80;

// Number, word and place of a refusal.
type Told = (u8, Word, usize);

// How many bytes of a file are played, up to two of them that are put in, each with its index, and what the play is refused for.
type Case = (usize, [Option<(usize, u8)>; 2], Told);

// The play of a file, with the bytes put in, is refused for this; memory, all of one cell, and output are as they were.
fn refuse<C: Kind, H: Entry<C>>(
    rt: &impl Abort,
    memory: &mut [C],
    cell: C,
    out: &mut [u8],
    file: &[u8],
    edits: [Option<(usize, u8)>; 2],
    told: Told,
) -> Result<(), Fail> {
    let Err(fault) = play::<C, H>(memory, file, out) else {
        return Err(Fail::new("the round was played"));
    };
    let (number, word, place) = told;
    let length = file.len();
    assert_eq!(rt;
        Refusal::from(fault),
        Refusal {
            number,
            word,
            place,
        },
        "length {length}, edits {edits:?}"
    );
    for found in memory.iter() {
        assert!(rt; *found == cell, "a cell was written");
    }
    check_untouched(rt, out);
    Ok(())
}

// The file with zeros after it, and with the bytes put in.
fn edited(file: &[u8], edits: [Option<(usize, u8)>; 2]) -> [u8; FILE] {
    let mut bytes = [0; FILE];
    let len = file.len().min(FILE);
    bytes[..len].copy_from_slice(&file[..len]);
    for edit in edits {
        if let Some((index, byte)) = edit {
            if index < FILE {
                bytes[index] = byte;
            }
        }
    }
    bytes
}

fn refuse_each<C: Kind, H: Entry<C>>(
    rt: &impl Abort,
    memory: &mut [C],
    cell: C,
    out: &mut [u8],
    file: &[u8],
    cases: &[Case],
) -> Result<(), Fail> {
    for case in cases {
        let (length, edits, told) = *case;
        assert!(rt; length <= FILE);
        let bytes = edited(file, edits);
        refuse::<C, H>(rt, memory, cell, out, &bytes[..length], edits, told)?;
    }
    Ok(())
}

// A file of bits, altered.
fn refuse_bits(
    rt: &impl Abort,
    memory: &mut [Bit],
    out: &mut [u8],
    file: &[u8],
    cases: &[Case],
) -> Result<(), Fail> {
    refuse_each::<Bit, Elementary>(rt, memory, Bit::One, out, file, cases)
}

#[test]
fn files_of_bits(rt: HostRuntime) -> Result<(), Fail> {
    let cases = [
        (0, [None, None], (23, Word::Round, 0)),
        (8, [None, None], (23, Word::Round, 0)),
        (44, [Some((0, 0x42)), None], (24, Word::Round, 0)),
        (44, [Some((0, 0x82)), None], (24, Word::Round, 0)),
        (44, [Some((0, 0xC2)), None], (24, Word::Round, 0)),
        (43, [None, None], (25, Word::Round, 0)),
        (45, [None, None], (25, Word::Round, 0)),
        (44, [Some((6, 2)), None], (25, Word::Round, 0)),
        (44, [Some((0, 0x00)), None], (2, Word::Lay, 0)),
        (44, [Some((10, 2)), None], (5, Word::Lay, 0)),
        (44, [Some((11, 0xFF)), None], (5, Word::Lay, 1)),
        (44, [Some((10, 2)), Some((11, 2))], (5, Word::Lay, 0)),
        // The first that fails: 23 before 24, 24 before 25, lay before run.
        (8, [Some((0, 0x82)), None], (23, Word::Round, 0)),
        (43, [Some((0, 0x82)), None], (24, Word::Round, 0)),
        (45, [Some((0, 0x42)), None], (24, Word::Round, 0)),
        (44, [Some((0, 0x00)), Some((43, 1))], (2, Word::Lay, 0)),
        (44, [Some((11, 2)), Some((43, 1))], (5, Word::Lay, 1)),
    ];
    refuse_bits(
        &rt,
        &mut [Bit::One; SAMPLE_CELLS],
        &mut [FILL; ROOM],
        SAMPLE,
        &cases,
    )
}

#[test]
fn scripts_of_bits(rt: HostRuntime) -> Result<(), Fail> {
    let cases = [
        (43, [Some((8, 0x1F)), None], (11, Word::Run, 0)),
        (45, [Some((8, 0x21)), None], (11, Word::Run, 0)),
        (44, [Some((19, 1)), None], (12, Word::Run, 0)),
        (44, [Some((42, 8)), None], (12, Word::Run, 3)),
        (44, [Some((38, 0x20)), None], (13, Word::Run, 3)),
        (44, [Some((36, 0x80)), None], (13, Word::Run, 3)),
        (44, [Some((14, 0x10)), None], (14, Word::Run, 1)),
        (44, [Some((15, 2)), None], (7, Word::Strike, 0)),
        (44, [Some((39, 2)), None], (7, Word::Strike, 3)),
        (44, [Some((16, 0x0C)), None], (8, Word::Strike, 0)),
        (44, [Some((40, 0x0C)), None], (8, Word::Strike, 3)),
        (44, [Some((41, 0x30)), None], (8, Word::Strike, 3)),
        (44, [Some((18, 0x20)), None], (9, Word::Strike, 0)),
        (44, [Some((41, 0x2F)), None], (9, Word::Strike, 3)),
        // The earlier record.
        (44, [Some((18, 0x20)), Some((43, 1))], (9, Word::Strike, 0)),
    ];
    refuse_bits(
        &rt,
        &mut [Bit::One; SAMPLE_CELLS],
        &mut [FILL; ROOM],
        SAMPLE,
        &cases,
    )
}

// The memory one cell too short, and the output one byte too short.
#[test]
fn rooms_of_bits(rt: HostRuntime) -> Result<(), Fail> {
    let memory = (4, Word::Lay, 0);
    let cases = [
        (44, [None, None], memory),
        (44, [Some((10, 2)), Some((43, 1))], memory),
        (44, [Some((0, 0x00)), None], (2, Word::Lay, 0)),
    ];
    refuse_bits(&rt, &mut [Bit::One; 39], &mut [FILL; ROOM], SAMPLE, &cases)?;
    let output = (15, Word::Report, 0);
    let cases = [
        (44, [None, None], output),
        (44, [Some((0, 0x00)), Some((43, 1))], output),
        (43, [None, None], (25, Word::Round, 0)),
        (44, [Some((0, 0x42)), None], (24, Word::Round, 0)),
        (8, [None, None], (23, Word::Round, 0)),
    ];
    refuse_bits(&rt, &mut [Bit::One; 39], &mut [FILL; SHORT], SAMPLE, &cases)
}

// Two planes of side 3 with a rule of two bytes. If it has none, the tape begins where the rule was.
const RULES: &[u8; 13] = b"\x02\x00\x10\x00\x01\x00\x02\x00\x00\x01\x01\x01\x00";

// Five planes of side 64, with one rule.
const COPIES: &[u8; 15] = b"\x3F\x00\x40\x00\x00\x00\x01\x00\x00\xCC\x00\x00\x00\x00\x00";

#[test]
fn rules(rt: HostRuntime) -> Result<(), Fail> {
    let rule = (27, Word::Host, 0);
    let cases = [
        (13, [None, None], rule),
        (11, [Some((6, 0)), None], rule),
        // Before lay.
        (13, [Some((0, 0x00)), None], rule),
        (13, [Some((12, 2)), None], rule),
    ];
    refuse_bits(
        &rt,
        &mut [Bit::One; SAMPLE_CELLS],
        &mut [FILL; ROOM],
        RULES,
        &cases,
    )?;
    let output = (13, [None, None], (15, Word::Report, 0));
    refuse_bits(
        &rt,
        &mut [Bit::One; SAMPLE_CELLS],
        &mut [FILL; SHORT],
        RULES,
        &[output],
    )
}

#[test]
fn copies(rt: HostRuntime) -> Result<(), Fail> {
    let copies = (26, Word::Round, 0);
    let cases = [
        (15, [None, None], copies),
        // Sides 58 and 57: 16,820 and 16,245 copies.
        (15, [Some((0, 0x39)), None], copies),
        (15, [Some((0, 0x38)), None], (4, Word::Lay, 0)),
        // Four planes: just 16,384.
        (14, [Some((2, 0x30)), None], (4, Word::Lay, 0)),
        // After 25, before 27 and 5.
        (14, [None, None], (25, Word::Round, 0)),
        (16, [Some((6, 2)), Some((14, 2))], copies),
    ];
    refuse_bits(
        &rt,
        &mut [Bit::One; SAMPLE_CELLS],
        &mut [FILL; ROOM],
        COPIES,
        &cases,
    )?;
    let before = (15, [None, None], copies);
    refuse_bits(
        &rt,
        &mut [Bit::One; SAMPLE_CELLS],
        &mut [FILL; SHORT],
        COPIES,
        &[before],
    )
}

// As long as its header says, which is 65,536 bytes.
#[test]
fn a_file_too_long(rt: HostRuntime) -> Result<(), Fail> {
    let mut file = [0; 65_536];
    file[0] = 0x01;
    file[2] = 0x50;
    file[6] = 1;
    file[7] = 0xFF;
    file[8] = 0xF0;
    let told = (25, Word::Round, 0);
    let (memory, out) = (&mut [Bit::One; 60], &mut [FILL; ROOM]);
    refuse::<Bit, Elementary>(&rt, memory, Bit::One, out, &file, [None; 2], told)
}

// The busy beaver's round, altered, over memory of one cell that is not of its tape.
fn refuse_machines<const N: usize>(
    rt: &impl Abort,
    out: &mut [u8],
    cases: &[Case],
) -> Result<(), Fail> {
    assert!(rt; N <= BEAVER_CELLS);
    let cell = MachineCell::from(0x77);
    refuse_each::<MachineCell, Machine>(rt, &mut [cell; N], cell, out, BEAVER, cases)
}

#[test]
fn files_of_machine_cells(rt: HostRuntime) -> Result<(), Fail> {
    let cases = [
        (8, [None, None], (23, Word::Round, 0)),
        (69, [Some((0, 0x04)), None], (24, Word::Round, 0)),
        (69, [Some((0, 0x84)), None], (24, Word::Round, 0)),
        (69, [Some((0, 0xC4)), None], (24, Word::Round, 0)),
        (68, [None, None], (25, Word::Round, 0)),
        (70, [None, None], (25, Word::Round, 0)),
        // Seven planes of sides 49 and 48: 16,807 and 16,128 copies.
        (69, [Some((0, 0x70)), None], (26, Word::Round, 0)),
        (69, [Some((0, 0x6F)), None], (4, Word::Lay, 0)),
        (69, [Some((0, 0x40)), None], (2, Word::Lay, 0)),
        // The first that fails.
        (8, [Some((0, 0x84)), None], (23, Word::Round, 0)),
        (68, [Some((0, 0x04)), None], (24, Word::Round, 0)),
        (68, [Some((0, 0x70)), None], (25, Word::Round, 0)),
        (69, [Some((0, 0x70)), Some((9, 0x30))], (26, Word::Round, 0)),
        (69, [Some((0, 0x40)), Some((68, 1))], (2, Word::Lay, 0)),
    ];
    refuse_machines::<BEAVER_CELLS>(&rt, &mut [FILL; ROOM], &cases)
}

#[test]
fn machines(rt: HostRuntime) -> Result<(), Fail> {
    let cases = [
        (56, [Some((6, 0)), None], (17, Word::Host, 0)),
        (69, [Some((9, 0x01)), None], (17, Word::Host, 0)),
        (69, [Some((9, 0x30)), None], (17, Word::Host, 0)),
        (69, [Some((9, 0x21)), None], (18, Word::Host, 0)),
        (69, [Some((10, 0x01)), None], (19, Word::Host, 0)),
        (69, [Some((20, 0x41)), None], (19, Word::Host, 5)),
        (69, [Some((10, 0x22)), None], (20, Word::Host, 0)),
        (69, [Some((20, 0x32)), None], (20, Word::Host, 5)),
        (69, [Some((11, 0xC0)), None], (21, Word::Host, 0)),
        (69, [Some((21, 0xC0)), None], (21, Word::Host, 5)),
        (69, [Some((11, 0x81)), None], (22, Word::Host, 0)),
        (69, [Some((21, 0x20)), None], (22, Word::Host, 5)),
        // The earlier entry; before lay; before run.
        (
            69,
            [Some((11, 0x81)), Some((20, 0x41))],
            (22, Word::Host, 0),
        ),
        (69, [Some((0, 0x40)), Some((9, 0x30))], (17, Word::Host, 0)),
        (69, [Some((0, 0x40)), Some((21, 0x20))], (22, Word::Host, 5)),
        (69, [Some((9, 0x21)), Some((68, 1))], (18, Word::Host, 0)),
    ];
    refuse_machines::<BEAVER_CELLS>(&rt, &mut [FILL; ROOM], &cases)
}

// Every byte names a machine cell, so 5 and 9 never come.
#[test]
fn scripts_of_machine_cells(rt: HostRuntime) -> Result<(), Fail> {
    let cases = [
        (68, [Some((8, 0x27)), None], (11, Word::Run, 0)),
        (70, [Some((8, 0x29)), None], (11, Word::Run, 0)),
        (69, [Some((36, 1)), None], (12, Word::Run, 0)),
        (69, [Some((67, 8)), None], (12, Word::Run, 4)),
        (69, [Some((63, 0x70)), None], (13, Word::Run, 4)),
        (69, [Some((31, 0x10)), None], (14, Word::Run, 1)),
        (69, [Some((32, 7)), None], (7, Word::Strike, 0)),
        (69, [Some((64, 7)), None], (7, Word::Strike, 4)),
        (69, [Some((33, 0x14)), None], (8, Word::Strike, 0)),
        (69, [Some((66, 0x52)), None], (8, Word::Strike, 4)),
        // The earlier record.
        (69, [Some((33, 0x14)), Some((68, 1))], (8, Word::Strike, 0)),
    ];
    refuse_machines::<BEAVER_CELLS>(&rt, &mut [FILL; ROOM], &cases)
}

#[test]
fn rooms_of_machine_cells(rt: HostRuntime) -> Result<(), Fail> {
    let memory = (4, Word::Lay, 0);
    let cases = [
        (69, [None, None], memory),
        (69, [Some((68, 1)), None], memory),
        (69, [Some((9, 0x30)), None], (17, Word::Host, 0)),
        (69, [Some((0, 0x40)), None], (2, Word::Lay, 0)),
    ];
    refuse_machines::<363>(&rt, &mut [FILL; ROOM], &cases)?;
    let output = (15, Word::Report, 0);
    let cases = [
        (69, [None, None], output),
        (69, [Some((9, 0x30)), Some((68, 1))], output),
        (69, [Some((0, 0x70)), None], (26, Word::Round, 0)),
        (8, [None, None], (23, Word::Round, 0)),
    ];
    refuse_machines::<363>(&rt, &mut [FILL; SHORT], &cases)
}
