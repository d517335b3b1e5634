// Runs of as many beats as a plate can make, of the largest plates of a round, 16,384 copies; and four runs one after another.
use crate::Unbuilt;
use crate::records::{BEAVER, strike};
use hosts::elementary::Elementary;
use hosts::host::Host;
use hosts::machine::Machine;
use plate::plate::Plate;
use runs::run::run;
use std::alloc::{AllocError, Global};
use std::process::Abort;
use std::test::Fail;
use toom::bit::Bit;
use toom::kind::Kind;
use toom::machine_cell::MachineCell;

const BEATS: u32 = 1_048_575;

// The copies of such a plate, and the cells of a memory that is longer than it.
const COPIES: usize = 16_384;

const CELLS: usize = 40_960;

// A quarter of the beats, but for three in all.
const QUARTER: u32 = 262_143;

// What is struck in a round, of a plate of this side: row 5, and the place (1, 2) with the others. And what it leaves, as the second implementation
// replied to it: the count of the shadow, and the sum of the map.
#[derive(Clone, Copy)]
struct Round {
    side: usize,
    row: bool,
    place: bool,
    shadow: usize,
    hurt: u32,
}

// Strikes row 5 of plane 3, which stays wounded.
fn strike_row(script: &mut Vec<u8>, side: usize, byte: u8) -> Result<(), AllocError> {
    for column in 0..side {
        script.extend_from_slice(&strike(0, 3, 5, column, byte).to_be_bytes())?;
    }
    Ok(())
}

// Strikes a triangle of side 3, all round the edges, and lone places. All of them heal but the last, which comes after the last beat.
fn strike_places(
    script: &mut Vec<u8>,
    last_plane: usize,
    end: usize,
    [byte, other]: [u8; 2],
) -> Result<(), AllocError> {
    for (number, plane, row, column, byte) in [
        (1, 0, 0, 0, byte),
        (500_000, 1, end, end, other),
        (500_000, 1, end, 0, other),
        (500_000, 1, end, 1, other),
        (500_000, 1, 0, end, other),
        (500_000, 1, 0, 0, other),
        (500_000, 1, 1, end, other),
        (524_288, 2, 7, 6, byte),
        (1_048_574, last_plane, end, end, byte),
        (1_048_575, 0, 1, 2, byte),
    ] {
        script.extend_from_slice(&strike(number, plane, row, column, byte).to_be_bytes())?;
    }
    Ok(())
}

// The strikes of a round; its last plane, and its last row and column, are told.
fn script_of(
    heap: Global,
    round: Round,
    [plane, end]: [usize; 2],
    bytes: [u8; 2],
) -> Result<Vec<u8>, AllocError> {
    let mut script = Vec::new(heap);
    if round.row {
        strike_row(&mut script, round.side, bytes[0])?;
    }
    if round.place {
        strike_places(&mut script, plane, end, bytes)?;
    }
    Ok(script)
}

// The places that are struck at the end, row by row.
fn struck_places(rt: &impl Abort, round: Round) -> [bool; 4096] {
    assert!(rt; round.side <= 64);
    let mut struck = [false; 4096];
    struck[5 * round.side..6 * round.side].fill(round.row);
    struck[round.side + 2] = round.place;
    struck
}

// The same as words of a shadow.
fn struck_words(rt: &impl Abort, round: Round) -> [u64; 64] {
    assert!(rt; round.side > 0 && round.side <= 64);
    let mut words = [0; 64];
    words[1] = u64::from(round.place) << 61;
    words[5] = if round.row {
        u64::MAX << (64 - round.side)
    } else {
        0
    };
    words
}

// The sum of the map.
fn hurt<C: Kind>(plate: &Plate<'_, C>) -> Result<u32, Fail> {
    let mut map = [0; 4096];
    plate.map(&mut map)?;
    Ok(
        map.iter()
            .fold(0u32, |sum, count| sum.saturating_add(u32::from(*count))),
    )
}

// The map counts a copy at each struck place, and at no other.
fn check_map<C: Kind>(
    rt: &impl Abort,
    plate: &Plate<'_, C>,
    struck: &[bool; 4096],
) -> Result<(), Fail> {
    let mut map = [0; 4096];
    plate.map(&mut map)?;
    for (place, (count, is_struck)) in map.iter().zip(struck.iter()).enumerate() {
        assert_eq!(rt; *count > 0, *is_struck, "place {place}");
    }
    Ok(())
}

// All that a plate tells of itself after the round.
fn check_plate<C: Kind>(rt: &impl Abort, plate: &Plate<'_, C>, round: Round) -> Result<(), Fail> {
    let laid = plate.standing().ok_or(Unbuilt)?;
    assert_eq!(rt; laid.age, BEATS);
    assert_eq!(rt; laid.shadow.count(), round.shadow);
    let mut words = [0; 64];
    plate.shadow(&mut words)?;
    assert_eq!(rt; words, struck_words(rt, round));
    assert_eq!(rt; hurt(plate)?, round.hurt);
    check_map(rt, plate, &struck_places(rt, round))
}

// Each copy of a plane outside the struck places is this cell.
fn check_plane<C: Kind>(rt: &impl Abort, plane: &[C], struck: &[bool], cell: C) {
    for (place, (copy, is_struck)) in plane.iter().zip(struck).enumerate() {
        assert!(rt; *is_struck || *copy == cell, "place {place}");
    }
}

// The cells after the round. The line is the reading, outside the struck places every copy is the line's, and past the plate all is as it was.
fn check_cells<C: Kind>(
    rt: &impl Abort,
    cells: &[C],
    round: Round,
    reading: &[u8],
    past: C,
) -> Result<(), Unbuilt> {
    assert!(rt; round.side > 0 && round.side <= 64);
    let (copies, rest) = cells.split_at_checked(COPIES).ok_or(Unbuilt)?;
    let (_, rest) = rest.split_at_checked(COPIES).ok_or(Unbuilt)?;
    let (line, rest) = rest.split_at_checked(reading.len()).ok_or(Unbuilt)?;
    let (_, rest) = rest.split_at_checked(reading.len()).ok_or(Unbuilt)?;
    let struck = struck_places(rt, round);
    let planes = copies.chunks_exact(round.side * round.side);
    for ((plane, cell), byte) in planes.zip(line).zip(reading) {
        assert_eq!(rt; cell.byte(), *byte);
        check_plane(rt, plane, &struck, *cell);
    }
    for cell in rest {
        assert!(rt; *cell == past);
    }
    Ok(())
}

// Makes all beats with the strikes among them, and looks at everything that is left. Each cell of the memory is at first that of `past`.
fn full_run<C: Kind, H: Host<C>>(
    rt: &impl Abort,
    cells: &mut [C],
    host: &H,
    round: Round,
    script: &[u8],
    [tape, reading]: [&[u8]; 2],
    past: C,
) -> Result<(), Fail> {
    let mut plate = Plate::new(cells);
    plate.lay(tape.len(), round.side, tape)?;
    assert_eq!(rt; run(&mut plate, host, script, BEATS), Ok(()));
    check_plate(rt, &plate, round)?;
    let mut out = [0; 4096];
    plate.read(&mut out)?;
    assert!(rt; reading.len() == tape.len() && reading.len() <= 4096);
    assert_eq!(rt; &out[..reading.len()], reading);
    check_cells(rt, cells, round, reading, past)?;
    Ok(())
}

// Four planes of bits. Rule 110 takes the ring 1011 to 1110 and back.
#[test]
fn all_beats_of_bits(rt: HostRuntime) -> Result<(), Fail> {
    let past = Bit::One;
    for (row, place, shadow, hurt) in [
        (false, false, 0, 0),
        (true, false, 64, 192),
        (false, true, 1, 1),
        (true, true, 65, 193),
    ] {
        let round = Round {
            side: 64,
            row,
            place,
            shadow,
            hurt,
        };
        full_run(
            &rt,
            &mut [past; CELLS],
            &Elementary { rule: 110 },
            round,
            &script_of(rt.alloc(), round, [3, 63], [0, 1])?,
            [&[1, 0, 1, 1], &[1, 1, 1, 0]],
            past,
        )?;
    }
    Ok(())
}

// Machines of eight cells each, side by side, that all do the same.
fn side_by_side(eight: [u8; 8]) -> [u8; 256] {
    let mut ring = [0; 256];
    for bytes in ring.chunks_exact_mut(8) {
        bytes.copy_from_slice(&eight);
    }
    ring
}

// 256 planes of machine cells.
fn all_beats_of_beavers(
    rt: &impl Abort,
    heap: Global,
    (row, place): (bool, bool),
    (shadow, hurt): (usize, u32),
) -> Result<(), Fail> {
    let past = MachineCell::from_byte(0x27).ok_or(Unbuilt)?;
    let round = Round {
        side: 8,
        row,
        place,
        shadow,
        hurt,
    };
    full_run(
        rt,
        &mut [past; CELLS],
        &Machine::read(&BEAVER)?,
        round,
        &script_of(heap, round, [255, 7], [0x27, 0x27])?,
        [
            &side_by_side([0, 0x10, 0, 0, 0, 0, 0, 0]),
            &side_by_side([0x01, 0x31, 0x01, 0, 0, 0, 0, 0x01]),
        ],
        past,
    )
}

// A test for each round, since those with a row take seconds.
#[test]
fn all_beats_of_machine_cells(rt: HostRuntime) -> Result<(), Fail> {
    all_beats_of_beavers(&rt, rt.alloc(), (false, false), (0, 0))
}

#[test]
fn all_beats_of_machine_cells_with_a_row(rt: HostRuntime) -> Result<(), Fail> {
    all_beats_of_beavers(&rt, rt.alloc(), (true, false), (8, 8))
}

#[test]
fn all_beats_of_machine_cells_that_heal(rt: HostRuntime) -> Result<(), Fail> {
    all_beats_of_beavers(&rt, rt.alloc(), (false, true), (1, 1))
}

#[test]
fn all_beats_of_machine_cells_with_all_strikes(rt: HostRuntime) -> Result<(), Fail> {
    all_beats_of_beavers(&rt, rt.alloc(), (true, true), (9, 9))
}

// The ring of the faultless run after one step, in cells; that of `cases` is in bytes, as its tables are.
fn step<C: Kind, H: Host<C>, const N: usize>(host: &H, ring: [C; N]) -> [C; N] {
    let mut after = ring;
    // By index: a cell and both its neighbours are needed at once.
    for i in 0..N {
        let left = if i > 0 { i - 1 } else { N - 1 };
        let right = if i + 1 < N { i + 1 } else { 0 };
        after[i] = host.answer(ring[left], ring[i], ring[right]);
    }
    after
}

// The plate reads as the ring.
fn check_reading<C: Kind, const N: usize>(
    rt: &impl Abort,
    plate: &Plate<'_, C>,
    ring: &[C; N],
) -> Result<(), Fail> {
    assert!(rt; N <= 4096);
    let mut out = [0; N];
    plate.read(&mut out)?;
    for (i, (byte, cell)) in out.iter().zip(ring.iter()).enumerate() {
        assert_eq!(rt; *byte, cell.byte(), "plane {i}");
    }
    Ok(())
}

// The bytes of the cells of a ring.
fn bytes_of<C: Kind, const N: usize>(ring: &[C; N]) -> [u8; N] {
    let mut bytes = [0; N];
    // No `map`, which is not proved at an array of any kind.
    for (byte, cell) in bytes.iter_mut().zip(ring.iter()) {
        *byte = cell.byte();
    }
    bytes
}

// One of the two cells that is not this one.
fn other<C: Kind>(cell: C, two: [C; 2]) -> C {
    let [first, second] = two;
    if cell == first { second } else { first }
}

// A ring of blanks with a mark in each eighth cell.
fn marked<C: Kind, const N: usize>(blank: C, mark: C) -> [C; N] {
    let mut ring = [blank; N];
    for (i, cell) in ring.iter_mut().enumerate() {
        if i % 8 == 1 {
            *cell = mark;
        }
    }
    ring
}

// Four runs of one plate. Each begins with a wrong copy, which the map shows, and has another strike before its last beat.
fn four_runs<C: Kind, H: Host<C>, const N: usize>(
    rt: &impl Abort,
    cells: &mut [C],
    host: &H,
    side: usize,
    tape: [C; N],
    wrong: [C; 2],
    beats: u32,
) -> Result<(), Fail> {
    assert!(rt; N >= 4 && N <= 4096 && side >= 2 && side <= 64 && beats > 0);
    let mut plate = Plate::new(cells);
    plate.lay(N, side, &bytes_of(&tape))?;
    let mut ring = tape;
    for lap in 0..4usize {
        let cell = other(ring[lap], wrong);
        let early = strike(0, lap, lap / 2, lap % 2, cell.byte()).to_be_bytes();
        run(&mut plate, host, &early, 0)?;
        assert_eq!(rt; hurt(&plate)?, 1);
        let late = strike(beats - 1, N - 1, side - 1, side - 1, cell.byte()).to_be_bytes();
        run(&mut plate, host, &late, beats)?;
        for _ in 0..beats {
            ring = step(host, ring);
        }
        check_reading(rt, &plate, &ring)?;
        assert_eq!(rt; hurt(&plate)?, 0);
    }
    Ok(())
}

// Planes of side 64, 8 and 2, each in as many cells as they use; of the last a thousand beats.
#[test]
fn four_runs_of_bits(rt: HostRuntime) -> Result<(), Fail> {
    let host = Elementary { rule: 110 };
    let (blank, mark) = (Bit::Zero, Bit::One);
    let two = [blank, mark];
    let (few, more, most) = (
        marked(blank, mark),
        marked(blank, mark),
        marked(blank, mark),
    );
    four_runs::<Bit, _, 4>(&rt, &mut [blank; 32_776], &host, 64, few, two, QUARTER)?;
    four_runs::<Bit, _, 256>(&rt, &mut [blank; 33_280], &host, 8, more, two, QUARTER)?;
    four_runs::<Bit, _, 4096>(&rt, &mut [blank; 40_960], &host, 2, most, two, 250)
}

#[test]
fn four_runs_of_machine_cells(rt: HostRuntime) -> Result<(), Fail> {
    let host = Machine::read(&BEAVER)?;
    let blank = MachineCell::from_byte(0).ok_or(Unbuilt)?;
    let head = MachineCell::from_byte(0x10).ok_or(Unbuilt)?;
    let two = [MachineCell::from_byte(0x27).ok_or(Unbuilt)?, blank];
    let (few, more, most) = (
        marked(blank, head),
        marked(blank, head),
        marked(blank, head),
    );
    four_runs::<MachineCell, _, 4>(&rt, &mut [blank; 32_776], &host, 64, few, two, QUARTER)?;
    four_runs::<MachineCell, _, 256>(&rt, &mut [blank; 33_280], &host, 8, more, two, QUARTER)?;
    four_runs::<MachineCell, _, 4096>(&rt, &mut [blank; 40_960], &host, 2, most, two, 250)
}
