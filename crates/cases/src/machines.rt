// Turing machines on rings of machine cells.
use crate::Unbuilt;
use crate::rings::step;
use hosts::host::Host;
use hosts::machine::Machine;
use hosts::machine::fault::MachineFault;
use std::test::Fail;
use toom::kind::Kind;
use toom::machine_cell::MachineCell;

// The two-state busy beaver; state 3 stands still.
pub(crate) const BEAVER: [u8; 13] = [
    0x31, 0x21, 0x80, 0x21, 0x40, 0x11, 0x40, 0x31, 0x80, 0x30, 0x00, 0x31, 0x00,
];

// The byte of the machine's answer to the cells of three bytes.
fn answered(machine: &Machine, left: u8, centre: u8, right: u8) -> Result<u8, Unbuilt> {
    let left = MachineCell::from_byte(left).ok_or(Unbuilt)?;
    let centre = MachineCell::from_byte(centre).ok_or(Unbuilt)?;
    let right = MachineCell::from_byte(right).ok_or(Unbuilt)?;
    Ok(machine.answer(left, centre, right).byte())
}

#[test]
fn the_busy_beaver_in_six_steps(rt: HostRuntime) -> Result<(), Fail> {
    let machine = Machine::read(&BEAVER)?;
    let mut ring = [0, 0, 0, 0x10, 0, 0, 0];
    for _ in 0..6 {
        ring = step::<MachineCell, _, 7>(&machine, ring)?;
    }
    assert_eq!(rt; ring, [0, 0x01, 0x01, 0x31, 0x01, 0, 0]);
    Ok(())
}

#[test]
fn heads_that_arrive_and_cells_that_stay(rt: HostRuntime) -> Result<(), Fail> {
    let machine = Machine::read(&BEAVER)?;
    // left, centre, right and the answer
    let table = [
        (0x10, 0x00, 0x20, 0x20),
        (0x00, 0x45, 0x00, 0x45),
        (0x10, 0x45, 0x20, 0x45),
        (0x00, 0x12, 0x00, 0x12),
        (0x00, 0x30, 0x00, 0x30),
        (0x10, 0x30, 0x20, 0x30),
        (0x00, 0x10, 0x00, 0x01),
        (0x00, 0x00, 0x10, 0x00),
        (0x00, 0x00, 0x20, 0x10),
        (0x00, 0x05, 0x00, 0x05),
    ];
    for (left, centre, right, after) in table {
        assert_eq!(rt; answered(&machine, left, centre, right)?, after);
    }
    Ok(())
}

// A lone cell is its own left and right, and keeps its head whichever way it moves.
#[test]
fn a_ring_of_one_cell(rt: HostRuntime) -> Result<(), Fail> {
    let machine = Machine::read(&BEAVER)?;
    let mut ring = [0x10];
    for after in [[0x21], [0x31], [0x31]] {
        ring = step::<MachineCell, _, 1>(&machine, ring)?;
        assert_eq!(rt; ring, after);
    }
    Ok(())
}
