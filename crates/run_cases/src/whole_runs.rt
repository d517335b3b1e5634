// Whole runs: that they are their strikes and beats one by one, the order of records, the age, and two halves.
use crate::Unbuilt;
use crate::look::{CELLS, Look, PLANES, SIDE, check_same, look_at};
use crate::records::{BEAVER, script, strike, wound};
use hosts::elementary::Elementary;
use hosts::host::Host;
use hosts::machine::Machine;
use plate::plate::Plate;
use runs::fault::RunFault;
use runs::run::run;
use std::process::Abort;
use std::test::Fail;
use toom::bit::Bit;
use toom::kind::Kind;
use toom::machine_cell::MachineCell;

const RULE: Elementary = Elementary { rule: 110 };

// Six beats with strikes before the first, after the second and after the last, as one run.
fn whole<C: Kind, H: Host<C>>(
    cells: &mut [C],
    host: &H,
    tape: &[u8],
    byte: u8,
) -> Result<Look, Fail> {
    let mut plate = Plate::new(cells);
    plate.lay(PLANES, SIDE, tape)?;
    let script = script([
        strike(0, 0, 1, 2, byte),
        strike(2, 1, 3, 0, byte),
        strike(6, 2, 0, 3, byte),
    ]);
    run(&mut plate, host, &script, 6)?;
    Ok(look_at(&plate))
}

// The same by calls on the plate alone.
fn by_hand<C: Kind, H: Host<C>>(
    cells: &mut [C],
    host: &H,
    tape: &[u8],
    byte: u8,
) -> Result<Look, Fail> {
    let mut plate = Plate::new(cells);
    plate.lay(PLANES, SIDE, tape)?;
    plate.strike(wound(0, 1, 2, byte))?;
    plate.beat(host)?;
    plate.beat(host)?;
    plate.strike(wound(1, 3, 0, byte))?;
    for _ in 0..4 {
        plate.beat(host)?;
    }
    plate.strike(wound(2, 0, 3, byte))?;
    Ok(look_at(&plate))
}

// The same by two runs, of two beats and of four. The strike between them ends the first script or begins the second.
fn halves<C: Kind, H: Host<C>>(
    cells: &mut [C],
    host: &H,
    tape: &[u8],
    byte: u8,
    in_first: bool,
) -> Result<Look, Fail> {
    let mut plate = Plate::new(cells);
    plate.lay(PLANES, SIDE, tape)?;
    let first = script([strike(0, 0, 1, 2, byte), strike(2, 1, 3, 0, byte), 0]);
    let second = script([strike(0, 1, 3, 0, byte), strike(4, 2, 0, 3, byte), 0]);
    if in_first {
        run(&mut plate, host, &first[..16], 2)?;
        run(&mut plate, host, &second[8..16], 4)?;
    } else {
        run(&mut plate, host, &first[..8], 2)?;
        run(&mut plate, host, &second[..16], 4)?;
    }
    Ok(look_at(&plate))
}

// All three ways end alike, in the same cells.
fn agree<C: Kind, H: Host<C>>(
    rt: &impl Abort,
    cells: &mut [C],
    twin: &mut [C],
    host: &H,
    tape: &[u8],
    byte: u8,
) -> Result<(), Fail> {
    let run = whole(cells, host, tape, byte)?;
    assert_eq!(rt; run.age, Some(6));
    assert_eq!(rt; by_hand(twin, host, tape, byte)?, run);
    check_same(rt, cells, twin);
    for in_first in [false, true] {
        assert_eq!(rt; halves(twin, host, tape, byte, in_first)?, run);
        check_same(rt, cells, twin);
    }
    Ok(())
}

#[test]
fn a_run_of_bits_one_by_one_and_in_halves(rt: HostRuntime) -> Result<(), Fail> {
    for byte in [0, 1] {
        agree(
            &rt,
            &mut [Bit::Zero; CELLS],
            &mut [Bit::Zero; CELLS],
            &RULE,
            &[0, 1, 1],
            byte,
        )?;
    }
    Ok(())
}

#[test]
fn a_run_of_machine_cells_one_by_one_and_in_halves(rt: HostRuntime) -> Result<(), Fail> {
    let host = Machine::read(&BEAVER)?;
    let blank = MachineCell::from_byte(0).ok_or(Unbuilt)?;
    for byte in [0x00, 0x20, 0x45] {
        agree(
            &rt,
            &mut [blank; CELLS],
            &mut [blank; CELLS],
            &host,
            &[0, 0x10, 0],
            byte,
        )?;
    }
    Ok(())
}

// After the run of a script on a plate of blank cells: how many copies at row 1, column 2 are hurt, and whether the shadow holds the place.
fn at_place<C: Kind, H: Host<C>>(
    cells: &mut [C],
    host: &H,
    script: &[u8],
    beats: u32,
) -> Result<(u16, bool), Fail> {
    let mut plate = Plate::new(cells);
    plate.lay(PLANES, SIDE, &[0, 0, 0])?;
    run(&mut plate, host, script, beats)?;
    let seen = look_at(&plate);
    Ok((seen.map[6], seen.shadow[1] >> 61 & 1 == 1))
}

// Two records (number, plane and byte) and the beats, with what is seen of their place then. The host leaves blank cells as they are.
fn strikes_in_time<C: Kind, H: Host<C>>(
    rt: &impl Abort,
    cells: &mut [C],
    host: &H,
) -> Result<(), Fail> {
    let wound = 1;
    let table = [
        // Before the first beat: seen if there is none, else voted away.
        ([(0, 0, wound), (0, 0, wound)], 0, (1, true)),
        ([(0, 0, wound), (0, 0, wound)], 1, (0, false)),
        // After beat 2: not voted if it is the last.
        ([(2, 1, wound), (2, 1, wound)], 2, (1, true)),
        ([(2, 1, wound), (2, 1, wound)], 3, (0, false)),
        ([(1, 1, wound), (2, 0, wound)], 2, (1, true)),
        ([(2, 1, wound), (2, 0, wound)], 2, (2, true)),
        // Of two of one number on one copy the later wins.
        ([(2, 1, wound), (2, 1, 0)], 2, (0, true)),
        ([(2, 1, 0), (2, 1, wound)], 2, (1, true)),
        ([(0, 1, wound), (0, 1, 0)], 0, (0, true)),
        ([(0, 1, 0), (0, 1, wound)], 0, (1, true)),
    ];
    for ([(a, p, x), (b, q, y)], beats, seen) in table {
        let script = script([strike(a, p, 1, 2, x), strike(b, q, 1, 2, y), 0]);
        assert_eq!(rt; at_place(cells, host, &script[..16], beats)?, seen);
    }
    Ok(())
}

// Rule 204 gives the centre; a machine moves no cell without a head.
#[test]
fn strikes_before_and_after_their_beats(rt: HostRuntime) -> Result<(), Fail> {
    strikes_in_time(&rt, &mut [Bit::Zero; CELLS], &Elementary { rule: 204 })?;
    let host = Machine::read(&BEAVER)?;
    let blank = MachineCell::from_byte(0).ok_or(Unbuilt)?;
    strikes_in_time(&rt, &mut [blank; CELLS], &host)
}

// Lays the plate, and beats it once.
fn age<C: Kind, H: Host<C>>(plate: &mut Plate<'_, C>, host: &H, tape: &[u8]) -> Result<(), Fail> {
    plate.lay(PLANES, SIDE, tape)?;
    plate.beat(host)?;
    Ok(())
}

// With no beats and no record a run changes nothing.
fn no_call<C: Kind, H: Host<C>>(
    rt: &impl Abort,
    cells: &mut [C],
    twin: &mut [C],
    host: &H,
    tape: &[u8],
) -> Result<(), Fail> {
    let mut plate = Plate::new(cells);
    let mut other = Plate::new(twin);
    age(&mut plate, host, tape)?;
    age(&mut other, host, tape)?;
    run(&mut plate, host, &[], 0)?;
    assert_eq!(rt; look_at(&plate), look_at(&other));
    check_same(rt, cells, twin);
    Ok(())
}

// With no beats it only strikes.
fn no_beats<C: Kind, H: Host<C>>(
    rt: &impl Abort,
    cells: &mut [C],
    twin: &mut [C],
    host: &H,
    tape: &[u8],
) -> Result<(), Fail> {
    let mut plate = Plate::new(cells);
    let mut other = Plate::new(twin);
    age(&mut plate, host, tape)?;
    age(&mut other, host, tape)?;
    let script = script([
        strike(0, 0, 0, 0, 0),
        strike(0, 1, 0, 0, 1),
        strike(0, 2, 3, 3, 0),
    ]);
    run(&mut plate, host, &script, 0)?;
    other.strike(wound(0, 0, 0, 0))?;
    other.strike(wound(1, 0, 0, 1))?;
    other.strike(wound(2, 3, 3, 0))?;
    let seen = look_at(&plate);
    assert_eq!(rt; seen, look_at(&other));
    assert_eq!(rt; seen.age, Some(1));
    assert_eq!(rt; seen.shadow, [1 << 63, 0, 0, 1 << 60]);
    assert_eq!(rt; seen.map[15], 1);
    check_same(rt, cells, twin);
    Ok(())
}

#[test]
fn runs_without_beats(rt: HostRuntime) -> Result<(), Fail> {
    let (cells, twin) = (&mut [Bit::Zero; CELLS], &mut [Bit::Zero; CELLS]);
    no_call(&rt, cells, twin, &RULE, &[0, 1, 1])?;
    no_beats(&rt, cells, twin, &RULE, &[0, 1, 1])?;
    let host = Machine::read(&BEAVER)?;
    let blank = MachineCell::from_byte(0).ok_or(Unbuilt)?;
    let (cells, twin) = (&mut [blank; CELLS], &mut [blank; CELLS]);
    no_call(&rt, cells, twin, &host, &[0, 0x10, 0])?;
    no_beats(&rt, cells, twin, &host, &[0, 0x10, 0])
}

// The smallest plate: all its beats in one run, or all but one and then the last; then no more. A last strike is voted only by a beat after it.
fn to_the_limit<C: Kind, H: Host<C>>(
    rt: &impl Abort,
    cells: &mut [C],
    host: &H,
) -> Result<(), Fail> {
    let mut plate = Plate::new(cells);
    for (beats, hurt) in [(1_048_575, 1), (1_048_574, 0)] {
        plate.lay(1, 2, &[1])?;
        let last = strike(beats, 0, 1, 1, 0).to_be_bytes();
        run(&mut plate, host, &last, beats)?;
        run(&mut plate, host, &[], 1_048_575 - beats)?;
        assert_eq!(rt; run(&mut plate, host, &[], 1), Err(RunFault::Age));
        run(&mut plate, host, &[], 0)?;
        let mut out = [9];
        plate.read(&mut out)?;
        assert_eq!(rt; out, [1]);
        let mut map = [9; 4];
        plate.map(&mut map)?;
        assert_eq!(rt; map, [0, 0, 0, hurt]);
    }
    Ok(())
}

#[test]
fn the_age_at_its_limit(rt: HostRuntime) -> Result<(), Fail> {
    to_the_limit(&rt, &mut [Bit::Zero; 10], &Elementary { rule: 204 })?;
    let host = Machine::read(&BEAVER)?;
    let blank = MachineCell::from_byte(0).ok_or(Unbuilt)?;
    to_the_limit(&rt, &mut [blank; 10], &host)
}
