// Plates of bits and of machine cells: majorities, healing, a lone cell, a second lay.
use crate::Unbuilt;
use crate::machines::BEAVER;
use crate::rings::step;
use hosts::elementary::Elementary;
use hosts::host::Host;
use hosts::machine::Machine;
use hosts::machine::fault::MachineFault;
use plate::fault::{BeatFault, LayFault, ReadFault, StrikeFault};
use plate::plate::Plate;
use plate::strike::Strike;
use std::process::Abort;
use std::test::Fail;
use toom::bit::Bit;
use toom::kind::Kind;
use toom::machine_cell::MachineCell;

// Strikes the first `count` copies of plane 0, row by row, on a plate of side 4.
fn strike_first<C: Kind>(
    plate: &mut Plate<'_, C>,
    count: usize,
    byte: u8,
) -> Result<(), StrikeFault> {
    for j in 0..count {
        plate.strike(Strike {
            plane: 0,
            row: j / 4,
            column: j % 4,
            byte,
        })?;
    }
    Ok(())
}

// Seven wrong copies of sixteen do no harm, eight leave no majority, nine are the majority.
#[test]
fn a_majority_of_sixteen(rt: HostRuntime) -> Result<(), Fail> {
    let mut cells = [Bit::Zero; 34];
    let mut plate = Plate::new(&mut cells);
    plate.lay(1, 4, &[0])?;
    let mut out = [9];
    strike_first(&mut plate, 7, 1)?;
    plate.read(&mut out)?;
    assert_eq!(rt; out, [0]);
    strike_first(&mut plate, 8, 1)?;
    assert_eq!(rt; plate.read(&mut out), Err(ReadFault::Majority { plane: 0 }));
    assert_eq!(rt; out, [0]);
    strike_first(&mut plate, 9, 1)?;
    plate.read(&mut out)?;
    assert_eq!(rt; out, [1]);
    Ok(())
}

// Marks the right triangle of side 3 at (3, 3) of a torus of side 5, all round its edges, in plane 1.
fn strike_triangle<C: Kind>(plate: &mut Plate<'_, C>, byte: u8) -> Result<(), StrikeFault> {
    for (row, column) in [(3, 3), (3, 4), (3, 0), (4, 3), (4, 4), (0, 3)] {
        plate.strike(Strike {
            plane: 1,
            row,
            column,
            byte,
        })?;
    }
    Ok(())
}

// How many places of the shadow, and how many copies are hurt, on a plate of side 5.
fn wounds<C: Kind>(plate: &Plate<'_, C>) -> Result<(u32, u32), Unbuilt> {
    let mut rows = [0; 5];
    let mut map = [0; 25];
    if plate.shadow(&mut rows).is_err() || plate.map(&mut map).is_err() {
        return Err(Unbuilt);
    }
    let marked = rows
        .iter()
        .fold(0u32, |sum, row| sum.saturating_add(row.count_ones()));
    let hurt = map
        .iter()
        .fold(0u32, |sum, count| sum.saturating_add(u32::from(*count)));
    Ok((marked, hurt))
}

// The shadow of a struck triangle shrinks to nothing in three beats, and the plate is whole then; it reads right all the while.
fn heal<C: Kind, H: Host<C>>(
    rt: &impl Abort,
    plate: &mut Plate<'_, C>,
    host: &H,
    tape: [u8; 3],
    byte: u8,
) -> Result<(), Fail> {
    plate.lay(3, 5, &tape)?;
    strike_triangle(plate, byte)?;
    let mut run = tape;
    for marked in [6, 3, 1, 0] {
        let mut out = [0; 4];
        let (shadow, hurt) = wounds(plate)?;
        assert_eq!(rt; shadow, marked);
        assert!(rt; hurt <= 3 * marked);
        plate.read(&mut out)?;
        assert_eq!(rt; out, [run[0], run[1], run[2], 0]);
        plate.beat(host)?;
        run = step::<C, H, 3>(host, run)?;
    }
    Ok(())
}

#[test]
fn a_plate_of_bits_heals(rt: HostRuntime) -> Result<(), Fail> {
    let mut cells = [Bit::Zero; 156];
    let mut plate = Plate::new(&mut cells);
    heal(&rt, &mut plate, &Elementary { rule: 110 }, [0, 1, 1], 0)
}

#[test]
fn a_plate_of_machine_cells_heals(rt: HostRuntime) -> Result<(), Fail> {
    let machine = Machine::read(&BEAVER)?;
    let blank = MachineCell::from_byte(0).ok_or(Unbuilt)?;
    let mut cells = [blank; 200];
    let mut plate = Plate::new(&mut cells);
    heal(&rt, &mut plate, &machine, [0x10, 0x00, 0x01], 0x27)
}

// One plane is its own left and right; and a plate may be laid again with another shape.
#[test]
fn one_plane_and_a_second_lay(rt: HostRuntime) -> Result<(), Fail> {
    let mut cells = [Bit::Zero; 36];
    let mut plate = Plate::new(&mut cells);
    plate.lay(1, 2, &[1])?;
    plate.strike(Strike {
        plane: 0,
        row: 1,
        column: 1,
        byte: 0,
    })?;
    plate.beat(&Elementary { rule: 0x80 })?;
    let mut out = [7; 2];
    plate.read(&mut out)?;
    assert_eq!(rt; out, [1, 7]);
    plate.lay(2, 2, &[0, 1])?;
    plate.read(&mut out)?;
    assert_eq!(rt; out, [0, 1]);
    let mut rows = [5; 3];
    plate.shadow(&mut rows)?;
    assert_eq!(rt; rows, [0, 0, 5]);
    Ok(())
}
