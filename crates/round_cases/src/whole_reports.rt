// Reports of plates: whole, hurt, with no majority, the longest, and what is refused.
use crate::outputs::{FILL, ROOM, check_part, check_text, check_untouched};
use plate::plate::Plate;
use plate::strike::Strike;
use reports::fault::ReportFault;
use reports::report::report;
use std::process::Abort;
use std::test::Fail;
use toom::bit::Bit;
use toom::kind::Kind;
use toom::machine_cell::MachineCell;

// The cells of three planes of side 4.
const CELLS: usize = 102;

// Those of 4,096 planes of side 64.
const LARGEST: usize = 33_562_624;

// An output that is longer than it has to be.
const LONG: usize = 12_400;

// The report is this text, in the shortest output that is enough and in a longer one.
fn check_report<C: Kind>(rt: &impl Abort, plate: &Plate<'_, C>, text: &str) -> Result<(), Fail> {
    let mut out = [FILL; ROOM];
    let len = report(plate, &mut out)?;
    check_text(rt, &out, len, text);
    let mut out = [FILL; LONG];
    let len = report(plate, &mut out)?;
    check_text(rt, &out, len, text);
    Ok(())
}

// The report is refused, and the output is as it was.
fn refuse<C: Kind>(rt: &impl Abort, plate: &Plate<'_, C>, out: &mut [u8], fault: ReportFault) {
    assert_eq!(rt; report(plate, out), Err(fault));
    check_untouched(rt, out);
}

// Strikes eight of the sixteen copies of a plane.
fn split<C: Kind>(plate: &mut Plate<'_, C>, plane: usize, byte: u8) -> Result<(), Fail> {
    for row in 0..2usize {
        for column in 0..4usize {
            plate.strike(Strike {
                plane,
                row,
                column,
                byte,
            })?;
        }
    }
    Ok(())
}

// One place in two planes, one in the shadow alone, and one in one plane.
fn hurt<C: Kind>(plate: &mut Plate<'_, C>, tape: [u8; 3], wrong: [u8; 3]) -> Result<(), Fail> {
    for (plane, row, column, byte) in [
        (0, 0, 1, wrong[0]),
        (2, 0, 1, wrong[2]),
        (1, 2, 3, tape[1]),
        (1, 3, 0, wrong[1]),
    ] {
        plate.strike(Strike {
            plane,
            row,
            column,
            byte,
        })?;
    }
    Ok(())
}

// Three planes of side 4: new, then hurt. `wrong` has a byte for each plane that is not the tape's.
fn tell<C: Kind>(
    rt: &impl Abort,
    cells: &mut [C],
    tape: [u8; 3],
    wrong: [u8; 3],
    texts: [&str; 2],
) -> Result<(), Fail> {
    let mut plate = Plate::new(cells);
    plate.lay(3, 4, &tape)?;
    check_report(rt, &plate, texts[0])?;
    hurt(&mut plate, tape, wrong)?;
    check_report(rt, &plate, texts[1])
}

// With no majority in the first plane alone; in the last; and in both.
fn tell_split<C: Kind>(
    rt: &impl Abort,
    cells: &mut [C],
    tape: [u8; 3],
    wrong: [u8; 3],
) -> Result<(), Fail> {
    let mut plate = Plate::new(cells);
    plate.lay(3, 4, &tape)?;
    split(&mut plate, 0, wrong[0])?;
    let first = "age 0\nshadow 8\nhurt 8\n####\n####\n....\n....\nno majority 0\n";
    check_report(rt, &plate, first)?;
    plate.lay(3, 4, &tape)?;
    split(&mut plate, 2, wrong[2])?;
    let last = "age 0\nshadow 8\nhurt 8\n####\n####\n....\n....\nno majority 2\n";
    check_report(rt, &plate, last)?;
    split(&mut plate, 0, wrong[0])?;
    let both = "age 0\nshadow 8\nhurt 16\n####\n####\n....\n....\nno majority 0\n";
    check_report(rt, &plate, both)
}

#[test]
fn reports_of_bits(rt: HostRuntime) -> Result<(), Fail> {
    let (tape, wrong) = ([0, 1, 0], [1, 0, 1]);
    let texts = [
        "age 0\nshadow 0\nhurt 0\n....\n....\n....\n....\ntape 000100\n",
        "age 0\nshadow 3\nhurt 3\n.#..\n....\n...s\n#...\ntape 000100\n",
    ];
    tell(&rt, &mut [Bit::One; CELLS], tape, wrong, texts)?;
    tell_split(&rt, &mut [Bit::One; CELLS], tape, wrong)
}

#[test]
fn reports_of_machine_cells(rt: HostRuntime) -> Result<(), Fail> {
    let cell = MachineCell::from(0x77);
    let (tape, wrong) = ([0x00, 0x9A, 0xCF], [0xFF, 0x00, 0x00]);
    let texts = [
        "age 0\nshadow 0\nhurt 0\n....\n....\n....\n....\ntape 009acf\n",
        "age 0\nshadow 3\nhurt 3\n.#..\n....\n...s\n#...\ntape 009acf\n",
    ];
    tell(&rt, &mut [cell; CELLS], tape, wrong, texts)?;
    tell_split(&rt, &mut [cell; CELLS], tape, wrong)
}

// A bare plate first, then a short output. One byte more is enough.
fn refuse_both<C: Kind>(rt: &impl Abort, cells: &mut [C]) -> Result<(), Fail> {
    let mut plate = Plate::new(cells);
    refuse(rt, &plate, &mut [FILL; 12_395], ReportFault::Bare);
    refuse(rt, &plate, &mut [FILL; ROOM], ReportFault::Bare);
    plate.lay(1, 2, &[1])?;
    refuse(rt, &plate, &mut [FILL; 12_395], ReportFault::Output);
    check_report(rt, &plate, "age 0\nshadow 0\nhurt 0\n..\n..\ntape 01\n")
}

#[test]
fn refused_reports(rt: HostRuntime) -> Result<(), Fail> {
    refuse_both(&rt, &mut [Bit::Zero; 10])?;
    let cell = MachineCell::from(0x77);
    refuse_both(&rt, &mut [cell; 10])
}

// Strikes every copy of 4,096 planes of side 64.
fn strike_all<C: Kind>(plate: &mut Plate<'_, C>, byte: u8) -> Result<(), Fail> {
    for plane in 0..4096usize {
        for row in 0..64usize {
            for column in 0..64usize {
                plate.strike(Strike {
                    plane,
                    row,
                    column,
                    byte,
                })?;
            }
        }
    }
    Ok(())
}

const ALL_HURT: &str = "################################################################\n";

// The report of 4,096 planes of side 64 with every copy hurt, and the rest of the output as it was. `pair` has the digits of each plane.
fn check_longest(rt: &impl Abort, out: &[u8], pair: &str) {
    check_part(rt, out, 0, "age 0\nshadow 4096\nhurt 16777216\n");
    for row in 0..64usize {
        check_part(rt, out, 32 + 65 * row, ALL_HURT);
    }
    check_part(rt, out, 4192, "tape ");
    for plane in 0..4096usize {
        check_part(rt, out, 4197 + 2 * plane, pair);
    }
    check_part(rt, out, 12_389, "\n\x07\x07\x07\x07\x07\x07");
}

// The longest report but for its age, which is 0 and not of seven digits. Each plane is laid with 00, and then all of it is struck.
fn report_longest<C: Kind>(
    rt: &impl Abort,
    cells: &mut [C],
    byte: u8,
    out: &mut [u8],
) -> Result<(), Fail> {
    let mut plate = Plate::new(cells);
    plate.lay(4096, 64, &[0; 4096])?;
    strike_all(&mut plate, byte)?;
    assert_eq!(rt; report(&plate, out), Ok(12_390));
    Ok(())
}

#[test]
fn the_longest_report_of_bits(rt: HostRuntime) -> Result<(), Fail> {
    let mut cells = vec![in rt.alloc(); Bit::Zero; LARGEST]?;
    let mut out = [FILL; ROOM];
    report_longest(&rt, cells.as_mut_slice(), 1, &mut out)?;
    check_longest(&rt, &out, "01");
    Ok(())
}

#[test]
fn the_longest_report_of_machine_cells(rt: HostRuntime) -> Result<(), Fail> {
    let cell = MachineCell::from(0x77);
    let mut cells = vec![in rt.alloc(); cell; LARGEST]?;
    let mut out = [FILL; ROOM];
    report_longest(&rt, cells.as_mut_slice(), 0xFE, &mut out)?;
    check_longest(&rt, &out, "fe");
    Ok(())
}
