// Many beats at once and as many single ones leave the same memory, cell for cell, the voted copies and the earlier line too.
use crate::Unbuilt;
use crate::look::check_same;
use crate::records::{BEAVER, wound};
use hosts::elementary::Elementary;
use hosts::host::Host;
use hosts::machine::Machine;
use plate::plate::Plate;
use std::process::Abort;
use std::test::Fail;
use toom::bit::Bit;
use toom::kind::Kind;
use toom::machine_cell::MachineCell;

// The planes of the plate with the most of them, and the cells of the largest, forty planes of side 8.
const MOST: usize = 40;

const CELLS: usize = 5200;

// Sides and planes. Where the beats are many, lines of wounds are few on the last three plates, on the two before them a pair of places, and on the first
// three not even a lone one.
const SHAPES: [(usize, usize); 8] = [
    (2, 1),
    (2, 5),
    (3, 2),
    (16, 1),
    (8, 5),
    (16, 9),
    (16, 10),
    (8, 40),
];

// The places that are struck. A last row and a last column stay, an antidiagonal moves, a cross grows, a pair and a lone place heal, and all places are
// many.
#[derive(Clone, Copy)]
enum Pattern {
    Row,
    Column,
    Antidiagonal,
    Cross,
    Pair,
    Lone,
    All,
}

const PATTERNS: [Pattern; 7] = [
    Pattern::Row,
    Pattern::Column,
    Pattern::Antidiagonal,
    Pattern::Cross,
    Pattern::Pair,
    Pattern::Lone,
    Pattern::All,
];

impl Pattern {
    fn holds(self, side: usize, row: usize, column: usize) -> bool {
        match self {
            Pattern::Row => row.saturating_add(1) == side,
            Pattern::Column => column.saturating_add(1) == side,
            Pattern::Antidiagonal => row.saturating_add(column).saturating_add(1) == side,
            Pattern::Cross => row == 1 || column == 1,
            Pattern::Pair => row == 1 && column <= 1,
            Pattern::Lone => row == 1 && column == 0,
            Pattern::All => true,
        }
    }
}

// The first planes of the tape are laid, and the places of a pattern struck with cells that differ from it: each in the last plane, where the vote
// leaves the lines, and in one that changes from place to place, so that copies side by side differ in other planes.
#[derive(Clone, Copy)]
struct Case {
    planes: usize,
    side: usize,
    pattern: Pattern,
    tape: [u8; MOST],
    wrong: [u8; MOST],
}

// The bytes over and over.
fn repeated(bytes: [u8; 5]) -> [u8; MOST] {
    let mut all = [0; MOST];
    for (i, byte) in all.iter_mut().enumerate() {
        *byte = bytes[i % 5];
    }
    all
}

fn wear<C: Kind>(rt: &impl Abort, plate: &mut Plate<'_, C>, case: Case) -> Result<(), Fail> {
    let Case {
        planes,
        side,
        pattern,
        tape,
        wrong,
    } = case;
    assert!(rt; planes >= 1 && planes <= MOST && side <= 64);
    plate.lay(planes, side, &tape[..planes])?;
    for row in 0..side {
        for column in 0..side {
            if pattern.holds(side, row, column) {
                for plane in [planes - 1, (row + column) % planes] {
                    plate.strike(wound(plane, row, column, wrong[plane]))?;
                }
            }
        }
    }
    Ok(())
}

fn check_times<C: Kind, H: Host<C>>(
    rt: &impl Abort,
    cells: &mut [C],
    twin: &mut [C],
    host: &H,
    case: Case,
    times: u32,
) -> Result<(), Fail> {
    let mut plate = Plate::new(cells);
    wear(rt, &mut plate, case)?;
    plate.beats(host, times)?;
    let laid = plate.standing().ok_or(Unbuilt)?;
    let mut other = Plate::new(twin);
    wear(rt, &mut other, case)?;
    for _ in 0..times {
        other.beat(host)?;
    }
    let single = other.standing().ok_or(Unbuilt)?;
    assert_eq!(rt; laid.age, times);
    assert_eq!(rt; single.age, times);
    assert!(rt; laid.shadow == single.shadow);
    check_same(rt, cells, twin);
    Ok(())
}

// Every pattern on each plate, for few beats and for many.
fn check_all<C: Kind, H: Host<C>>(
    rt: &impl Abort,
    cells: &mut [C],
    twin: &mut [C],
    host: &H,
    tape: [u8; 5],
    wrong: [u8; 5],
) -> Result<(), Fail> {
    for (side, planes) in SHAPES {
        for pattern in PATTERNS {
            let case = Case {
                planes,
                side,
                pattern,
                tape: repeated(tape),
                wrong: repeated(wrong),
            };
            for times in 1..20 {
                check_times(rt, cells, twin, host, case, times)?;
            }
            check_times(rt, cells, twin, host, case, 300)?;
        }
    }
    Ok(())
}

#[test]
fn small_plates_of_bits(rt: HostRuntime) -> Result<(), Fail> {
    check_all(
        &rt,
        &mut [Bit::Zero; CELLS],
        &mut [Bit::Zero; CELLS],
        &Elementary { rule: 110 },
        [0, 1, 1, 0, 1],
        [1, 0, 0, 1, 0],
    )
}

#[test]
fn small_plates_of_machine_cells(rt: HostRuntime) -> Result<(), Fail> {
    let blank = MachineCell::from_byte(0).ok_or(Unbuilt)?;
    check_all(
        &rt,
        &mut [blank; CELLS],
        &mut [blank; CELLS],
        &Machine::read(&BEAVER)?,
        [0x00, 0x10, 0x00, 0x01, 0x00],
        [0x20, 0x27, 0x10, 0x00, 0x31],
    )
}
