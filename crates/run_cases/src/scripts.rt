// Records decoded, and scripts read. Neither takes an allocator, so nothing here allocates.
use crate::records::script;
use runs::record::Record;
use runs::script::Script;

// The fields of a record, in their order.
fn fields(record: Record) -> (u32, usize, usize, usize, u8, u16) {
    (
        record.number,
        record.strike.plane,
        record.strike.row,
        record.strike.column,
        record.strike.byte,
        record.spare,
    )
}

#[test]
fn records_field_by_field(rt: HostRuntime) {
    let table = [
        (0x0000_1001_0820_0000, (1, 1, 2, 2, 0, 0)),
        (0, (0, 0, 0, 0, 0, 0)),
        (0xFFFF_FFFF_FFFF_FFFF, (1_048_575, 4095, 63, 63, 255, 0xFFF)),
        // Each field alone full.
        (0xFFFF_F000_0000_0000, (1_048_575, 0, 0, 0, 0, 0)),
        (0x0000_0FFF_0000_0000, (0, 4095, 0, 0, 0, 0)),
        (0x0000_0000_FC00_0000, (0, 0, 63, 0, 0, 0)),
        (0x0000_0000_03F0_0000, (0, 0, 0, 63, 0, 0)),
        (0x0000_0000_000F_F000, (0, 0, 0, 0, 255, 0)),
        (0x0000_0000_0000_0FFF, (0, 0, 0, 0, 0, 0xFFF)),
    ];
    for (word, record) in table {
        assert_eq!(rt; fields(Record::decode(word)), record);
    }
}

// The fields of the next record of a script, if there is one.
fn next(script: &mut Script<'_>) -> Option<(u32, usize, usize, usize, u8, u16)> {
    let record = script.next()?;
    Some(fields(record))
}

// The last has bits of its own in all fields.
const WORDS: [u64; 3] = [
    0x0000_1001_0820_0000,
    0x0000_0002_0C10_5000,
    0x1234_5003_040F_F007,
];

#[test]
fn the_first_byte_of_a_record_is_its_highest(rt: HostRuntime) {
    let mut script = Script::new(&[0x00, 0x00, 0x10, 0x01, 0x08, 0x20, 0x00, 0x00]);
    assert_eq!(rt; next(&mut script), Some((1, 1, 2, 2, 0, 0)));
    assert_eq!(rt; next(&mut script), None);
}

// After the last record there is none, however often the reader is asked.
#[test]
fn a_reader_gives_records_in_order(rt: HostRuntime) {
    let bytes = script(WORDS);
    let mut script = Script::new(&bytes);
    assert_eq!(rt; next(&mut script), Some((1, 1, 2, 2, 0, 0)));
    assert_eq!(rt; next(&mut script), Some((0, 2, 3, 1, 5, 0)));
    assert_eq!(rt; next(&mut script), Some((0x12345, 3, 1, 0, 255, 7)));
    assert_eq!(rt; next(&mut script), None);
    assert_eq!(rt; next(&mut script), None);
}

// How many records are in so many bytes: a rest shorter than a record is not read.
#[test]
fn counts_of_records(rt: HostRuntime) {
    let bytes = script(WORDS);
    for (length, records) in [
        (0, 0),
        (1, 0),
        (7, 0),
        (8, 1),
        (15, 1),
        (16, 2),
        (23, 2),
        (24, 3),
    ] {
        let mut count = 0;
        for (index, _) in Script::new(&bytes[..length]).enumerate() {
            assert_eq!(rt; index, count);
            count = index.saturating_add(1);
        }
        assert_eq!(rt; count, records);
    }
}
