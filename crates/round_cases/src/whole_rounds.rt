// Rounds read and played: the sample, a machine, the most copies, the longest file and the greatest age.
use crate::files::{BEAVER, BEAVER_CELLS, BEAVER_REPORT, SAMPLE, SAMPLE_CELLS, SAMPLE_REPORT};
use crate::outputs::{FILL, ROOM, check_text};
use hosts::elementary::Elementary;
use hosts::machine::Machine;
use rounds::entry::Entry;
use rounds::file_kind::FileKind;
use rounds::play::play;
use rounds::round::{Round, kind};
use std::process::Abort;
use std::test::Fail;
use toom::bit::Bit;
use toom::kind::Kind;
use toom::machine_cell::MachineCell;

#[test]
fn kinds_of_files(rt: HostRuntime) {
    assert_eq!(rt; kind(&[]), FileKind::Bits);
    for (first, said) in [
        (0x00, FileKind::Bits),
        (0x3F, FileKind::Bits),
        (0x40, FileKind::MachineCells),
        (0x7F, FileKind::MachineCells),
        (0x80, FileKind::Other(2)),
        (0xBF, FileKind::Other(2)),
        (0xC0, FileKind::Other(3)),
        (0xFF, FileKind::Other(3)),
    ] {
        assert_eq!(rt; kind(&[first]), said);
        assert_eq!(rt; kind(&[first, 0xFF]), said);
    }
}

// The fields of a round that a file is read as: planes, side and beats, then host, tape and script.
fn check_round(
    rt: &impl Abort,
    kind: FileKind,
    file: &[u8],
    shape: (usize, usize, u32),
    host: &[u8],
    tape: &[u8],
    script: &[u8],
) -> Result<(), Fail> {
    let round = Round::read(kind, file)?;
    assert_eq!(rt; (round.planes, round.side, round.beats), shape);
    assert_eq!(rt; round.host, host);
    assert_eq!(rt; round.tape, tape);
    assert_eq!(rt; round.script, script);
    Ok(())
}

// The sample, then headers with one full field, of kinds 0, 3 and 0.
#[test]
fn rounds_read(rt: HostRuntime) -> Result<(), Fail> {
    let sample = *SAMPLE;
    check_round(
        &rt,
        FileKind::Bits,
        &sample,
        (2, 3, 1),
        &[0xCC],
        &[1, 0],
        &sample[12..],
    )?;
    check_round(
        &rt,
        FileKind::Bits,
        &[0x3F, 0, 0, 0, 0, 0, 0, 0, 0, 5],
        (1, 64, 0),
        &[],
        &[5],
        &[],
    )?;
    let ages = [0xC0, 0, 0x0F, 0xFF, 0xFF, 0, 0, 0, 0, 5];
    check_round(
        &rt,
        FileKind::Other(3),
        &ages,
        (1, 1, 1_048_575),
        &[],
        &[5],
        &[],
    )?;
    let mut planes = [0; 4105];
    planes[1] = 0xFF;
    planes[2] = 0xF0;
    check_round(
        &rt,
        FileKind::Bits,
        &planes,
        (4096, 1, 0),
        &[],
        &[0; 4096],
        &[],
    )
}

// The play is accepted, and its report is this text.
fn check_play<C: Kind, H: Entry<C>>(
    rt: &impl Abort,
    memory: &mut [C],
    file: &[u8],
    text: &str,
) -> Result<(), Fail> {
    let mut out = [FILL; ROOM];
    let len = play::<C, H>(memory, file, &mut out)?;
    check_text(rt, &out, len, text);
    Ok(())
}

// These are the bytes of the cells.
fn check_cells<C: Kind>(rt: &impl Abort, cells: &[C], bytes: &[u8]) {
    assert!(rt; cells.len() == bytes.len());
    for (index, (cell, byte)) in cells.iter().zip(bytes).enumerate() {
        assert_eq!(rt; cell.byte(), *byte, "cell {index}");
    }
}

// Its report, and every cell after it: those past the plate are as they were.
#[test]
fn the_sample(rt: HostRuntime) -> Result<(), Fail> {
    let mut cells = [Bit::One; SAMPLE_CELLS + 2];
    check_play::<Bit, Elementary>(&rt, &mut cells, SAMPLE, SAMPLE_REPORT)?;
    let copies = [0, 1, 1, 1, 1, 1, 1, 1, 1, 0, 0, 0, 0, 0, 0, 0, 0, 0];
    check_cells(&rt, &cells[..18], &copies);
    check_cells(&rt, &cells[18..36], &copies);
    check_cells(&rt, &cells[36..], &[1, 0, 1, 0, 1, 1]);
    Ok(())
}

// The line after six steps and after five; of the copies, the one that was struck after the last beat, and a plane that is whole.
#[test]
fn a_machine(rt: HostRuntime) -> Result<(), Fail> {
    let cell = MachineCell::from(0x77);
    let mut cells = [cell; BEAVER_CELLS + 1];
    check_play::<MachineCell, Machine>(&rt, &mut cells, BEAVER, BEAVER_REPORT)?;
    check_cells(&rt, &cells[5..10], &[0, 0, 0, 0x20, 0]);
    check_cells(&rt, &cells[75..100], &[0x31; 25]);
    let lines = [0, 1, 1, 0x31, 1, 0, 0, 0, 1, 0x21, 1, 1, 0, 0, 0x77];
    check_cells(&rt, &cells[350..], &lines);
    Ok(())
}

// 4,096 planes of side 2, then 4 of side 64: 16,384 copies, each in as many cells as they use.
#[test]
fn the_most_copies(rt: HostRuntime) {
    let mut file = [0; 4106];
    file[0] = 0x01;
    file[1] = 0xFF;
    file[2] = 0xF0;
    file[6] = 1;
    let len = play::<Bit, Elementary>(&mut [Bit::One; 40_960], &file, &mut [FILL; ROOM]);
    assert_eq!(rt; len, Ok(8226));
    let file = [0x3F, 0, 0x30, 0, 0, 0, 1, 0, 0, 0xCC, 0, 1, 0, 1];
    let len = play::<Bit, Elementary>(&mut [Bit::One; 32_776], &file, &mut [FILL; ROOM]);
    assert_eq!(rt; len, Ok(4196));
}

// 8,190 records, each of which strikes the first place.
#[test]
fn the_longest_file(rt: HostRuntime) -> Result<(), Fail> {
    let mut file = [0; 65_535];
    file[0] = 0x01;
    file[2] = 0x40;
    file[6] = 1;
    file[7] = 0xFF;
    file[8] = 0xF0;
    let text = "age 0\nshadow 1\nhurt 0\ns.\n..\ntape 0000000000\n";
    check_play::<Bit, Elementary>(&rt, &mut [Bit::One; 50], &file, text)
}

#[test]
fn the_most_beats(rt: HostRuntime) -> Result<(), Fail> {
    let file = [0x01, 0x00, 0x0F, 0xFF, 0xFF, 0, 1, 0, 0, 0xCC, 1];
    let text = "age 1048575\nshadow 0\nhurt 0\n..\n..\ntape 01\n";
    check_play::<Bit, Elementary>(&rt, &mut [Bit::Zero; 10], &file, text)
}
