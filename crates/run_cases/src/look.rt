// All that a plate of three planes of side 4 shows of itself, and the cells of two plates side by side.
use plate::fault::ReadFault;
use plate::plate::Plate;
use std::process::Abort;
use toom::kind::Kind;

pub(crate) const PLANES: usize = 3;

pub(crate) const SIDE: usize = 4;

// The cells that such a plate uses.
pub(crate) const CELLS: usize = 102;

#[derive(Clone, Copy, PartialEq, Eq, Debug)]
pub(crate) struct Look {
    // None of a bare plate.
    pub age: Option<u32>,
    pub shadow: [u64; 4],
    pub map: [u16; 16],
    // The output of the read as well where it is refused, since it has to be as it was.
    pub read: Result<(), ReadFault>,
    pub bytes: [u8; 3],
}

// A bare plate shows zeros.
pub(crate) fn look_at<C: Kind>(plate: &Plate<'_, C>) -> Look {
    let mut shadow = [0; 4];
    let _ = plate.shadow(&mut shadow);
    let mut map = [0; 16];
    let _ = plate.map(&mut map);
    let mut bytes = [0; 3];
    let read = plate.read(&mut bytes);
    Look {
        age: plate.standing().map(|laid| laid.age),
        shadow,
        map,
        read,
        bytes,
    }
}

// Both have the same cells.
pub(crate) fn check_same<C: Kind>(rt: &impl Abort, left: &[C], right: &[C]) {
    assert_eq!(rt; left.len(), right.len());
    for (index, (x, y)) in left.iter().zip(right).enumerate() {
        assert!(rt; x == y, "cell {index}");
    }
}
