// Outputs filled with one byte before a call, and the text that is found in them after it.
use std::process::Abort;

// The length that the output of a report must have.
pub(crate) const ROOM: usize = 12_396;

// What an output holds before the call.
pub(crate) const FILL: u8 = 7;

pub(crate) fn check_untouched(rt: &impl Abort, out: &[u8]) {
    for byte in out {
        assert_eq!(rt; *byte, FILL);
    }
}

// The text stands in the output from this index on.
pub(crate) fn check_part(rt: &impl Abort, out: &[u8], from: usize, text: &str) {
    assert!(rt; from <= out.len());
    let rest = &out[from..];
    assert!(rt; text.len() <= rest.len());
    assert_eq!(rt; &rest[..text.len()], text.as_bytes());
}

// The output begins with this text, of the length that was answered. What lies past it is as it was.
pub(crate) fn check_text(rt: &impl Abort, out: &[u8], len: usize, text: &str) {
    assert!(rt; len <= out.len());
    assert_eq!(rt; &out[..len], text.as_bytes());
    check_untouched(rt, &out[len..]);
}
