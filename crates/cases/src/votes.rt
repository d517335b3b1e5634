// The vote of three cells: north, east, own.
use toom::bit::Bit;
use toom::kind::Kind;
use toom::machine_cell::MachineCell;
use toom::vote::vote;

// The byte of the vote of the cells that three bytes name.
fn voted<C: Kind>(north: u8, east: u8, own: u8) -> Option<u8> {
    let north = C::from_byte(north)?;
    let east = C::from_byte(east)?;
    let own = C::from_byte(own)?;
    Some(vote(north, east, own).byte())
}

#[test]
fn bits(rt: HostRuntime) {
    assert_eq!(rt; voted::<Bit>(1, 1, 0), Some(1));
    let majority = [0, 0, 0, 1, 0, 1, 1, 1];
    for (i, vote) in (0..8u8).zip(majority) {
        assert_eq!(rt; voted::<Bit>(i / 4, i / 2 % 2, i % 2), Some(vote));
    }
}

#[test]
fn machine_cells(rt: HostRuntime) {
    let table = [
        (0x21, 0x30, 0x01, 0x01),
        (0x21, 0x21, 0x01, 0x21),
        (0x21, 0x01, 0x21, 0x21),
        (0x01, 0x21, 0x21, 0x21),
        (0x21, 0x2f, 0x21, 0x21),
    ];
    for (north, east, own, vote) in table {
        assert_eq!(rt; voted::<MachineCell>(north, east, own), Some(vote));
    }
}
