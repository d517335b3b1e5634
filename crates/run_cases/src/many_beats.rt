// Many beats of a plate at once: as many single beats, no beat at all, and more than are left to it.
use crate::Unbuilt;
use crate::look::{CELLS, Look, PLANES, SIDE, check_same, look_at};
use crate::records::{BEAVER, wound};
use hosts::elementary::Elementary;
use hosts::host::Host;
use hosts::machine::Machine;
use plate::fault::BeatFault;
use plate::plate::Plate;
use std::process::Abort;
use std::test::Fail;
use toom::bit::Bit;
use toom::kind::Kind;
use toom::machine_cell::MachineCell;

const RULE: Elementary = Elementary { rule: 110 };

// Row 3 of a shadow, all four places marked: column 0 is the highest bit.
const ROW: u64 = 0xF000_0000_0000_0000;

// Strikes a whole row, which stays in the shadow, and one more place, which the first vote clears.
fn wear<C: Kind>(plate: &mut Plate<'_, C>, tape: &[u8], byte: u8) -> Result<(), Fail> {
    plate.lay(PLANES, SIDE, tape)?;
    for column in 0..SIDE {
        plate.strike(wound(0, 3, column, byte))?;
    }
    plate.strike(wound(1, 1, 1, byte))?;
    Ok(())
}

// Three beats at once end as three single ones, in the same cells.
fn three<C: Kind, H: Host<C>>(
    rt: &impl Abort,
    cells: &mut [C],
    twin: &mut [C],
    host: &H,
    tape: &[u8],
    byte: u8,
) -> Result<Look, Fail> {
    let mut plate = Plate::new(cells);
    wear(&mut plate, tape, byte)?;
    plate.beats(host, 3)?;
    let look = look_at(&plate);
    let mut other = Plate::new(twin);
    wear(&mut other, tape, byte)?;
    for _ in 0..3 {
        other.beat(host)?;
    }
    assert_eq!(rt; look_at(&other), look);
    check_same(rt, cells, twin);
    Ok(look)
}

// Rule 110 takes the ring 001 to 011, 111 and 000.
#[test]
fn three_beats_of_bits(rt: HostRuntime) -> Result<(), Fail> {
    let look = three(
        &rt,
        &mut [Bit::Zero; CELLS],
        &mut [Bit::Zero; CELLS],
        &RULE,
        &[0, 0, 1],
        1,
    )?;
    assert_eq!(rt; look.age, Some(3));
    assert_eq!(rt; look.shadow, [0, 0, 0, ROW]);
    assert_eq!(rt; look.read, Ok(()));
    assert_eq!(rt; look.bytes, [0, 0, 0]);
    Ok(())
}

#[test]
fn three_beats_of_machine_cells(rt: HostRuntime) -> Result<(), Fail> {
    let host = Machine::read(&BEAVER)?;
    let blank = MachineCell::from_byte(0).ok_or(Unbuilt)?;
    let look = three(
        &rt,
        &mut [blank; CELLS],
        &mut [blank; CELLS],
        &host,
        &[0, 0x10, 0],
        0x20,
    )?;
    assert_eq!(rt; look.age, Some(3));
    assert_eq!(rt; look.shadow, [0, 0, 0, ROW]);
    assert_eq!(rt; look.read, Ok(()));
    Ok(())
}

// No beat is accepted, one too many is refused; neither changes anything.
#[test]
fn no_beats_and_too_many(rt: HostRuntime) -> Result<(), Fail> {
    let (cells, twin) = (&mut [Bit::Zero; CELLS], &mut [Bit::Zero; CELLS]);
    let mut other = Plate::new(twin);
    wear(&mut other, &[0, 1, 1], 0)?;
    other.beat(&RULE)?;
    let look = look_at(&other);
    let mut plate = Plate::new(cells);
    wear(&mut plate, &[0, 1, 1], 0)?;
    plate.beat(&RULE)?;
    assert_eq!(rt; plate.beats(&RULE, 0), Ok(()));
    assert_eq!(rt; look_at(&plate), look);
    for times in [1_048_575, u32::MAX] {
        assert_eq!(rt; plate.beats(&RULE, times), Err(BeatFault::Age));
        assert_eq!(rt; look_at(&plate), look);
    }
    assert_eq!(rt; look.age, Some(1));
    check_same(&rt, cells, twin);
    Ok(())
}
