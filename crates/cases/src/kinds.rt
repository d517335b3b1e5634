// Cells and their bytes, over all 256 bytes.
use crate::Unbuilt;
use std::test::Fail;
use toom::bit::Bit;
use toom::kind::Kind;
use toom::machine_cell::MachineCell;

#[test]
fn a_bit_has_the_bytes_00_and_01(rt: HostRuntime) {
    assert_eq!(rt; Bit::from_byte(0), Some(Bit::Zero));
    assert_eq!(rt; Bit::from_byte(1), Some(Bit::One));
    for byte in 2..=255u8 {
        assert_eq!(rt; Bit::from_byte(byte), None);
    }
    assert_eq!(rt; Bit::Zero.byte(), 0);
    assert_eq!(rt; Bit::One.byte(), 1);
}

#[test]
fn every_byte_names_a_machine_cell(rt: HostRuntime) -> Result<(), Fail> {
    for byte in 0..=255u8 {
        let cell = MachineCell::from_byte(byte).ok_or(Unbuilt)?;
        assert_eq!(rt; cell.head(), byte / 16);
        assert_eq!(rt; cell.symbol(), byte % 16);
        assert_eq!(rt; cell.byte(), byte);
        assert_eq!(rt; MachineCell::from(byte), cell);
        assert_eq!(rt; MachineCell::new(byte / 16, byte % 16), Some(cell));
    }
    assert_eq!(rt; MachineCell::new(16, 0), None);
    assert_eq!(rt; MachineCell::new(0, 16), None);
    Ok(())
}

#[test]
fn only_equal_cells_are_the_same(rt: HostRuntime) -> Result<(), Fail> {
    for a in 0..=255u8 {
        let x = MachineCell::from_byte(a).ok_or(Unbuilt)?;
        for b in 0..=255u8 {
            let y = MachineCell::from_byte(b).ok_or(Unbuilt)?;
            assert_eq!(rt; x == y, a == b);
        }
    }
    assert!(rt; Bit::One == Bit::One && Bit::Zero == Bit::Zero);
    assert!(rt; Bit::One != Bit::Zero && Bit::Zero != Bit::One);
    Ok(())
}
