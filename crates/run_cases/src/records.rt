// Records and scripts written from their fields, and the machine of the tests. `cases` has a machine and a strike like these: to share them, they
// would have to be public, with a contract.
use plate::strike::Strike;

// The two-state busy beaver; state 3 stands still.
pub(crate) const BEAVER: [u8; 13] = [
    0x31, 0x21, 0x80, 0x21, 0x40, 0x11, 0x40, 0x31, 0x80, 0x30, 0x00, 0x31, 0x00,
];

// A strike of no script.
pub(crate) fn wound(plane: usize, row: usize, column: usize, byte: u8) -> Strike {
    Strike {
        plane,
        row,
        column,
        byte,
    }
}

// The word of a record.
pub(crate) fn strike(number: u32, plane: usize, row: usize, column: usize, byte: u8) -> u64 {
    u64::from(number) << 44
        | (plane as u64) << 32
        | (row as u64) << 26
        | (column as u64) << 20
        | u64::from(byte) << 12
}

// A script of three records.
pub(crate) fn script(words: [u64; 3]) -> [u8; 24] {
    let mut bytes = [0; 24];
    for (record, word) in bytes.chunks_exact_mut(8).zip(words) {
        record.copy_from_slice(&word.to_be_bytes());
    }
    bytes
}
