// The round files of the tests, a line for the header, the host, the tape and each record, and their reports.

// Bits: two planes of side 3, one beat of rule 204, four records.
pub(crate) const SAMPLE: &[u8; 44] = b"\
    \x02\x00\x10\x00\x01\x00\x01\x00\x20\
    \xCC\
    \x01\x00\
    \x00\x00\x00\x00\x00\x00\x00\x00\
    \x00\x00\x00\x00\x00\x10\x00\x00\
    \x00\x00\x00\x00\x04\x00\x00\x00\
    \x00\x00\x10\x01\x08\x20\x00\x00";

// The cells that it uses.
pub(crate) const SAMPLE_CELLS: usize = 40;

pub(crate) const SAMPLE_REPORT: &str = "age 1\nshadow 2\nhurt 1\n#..\n...\n..s\ntape 0100\n";

// Machine cells: seven planes of side 5, six beats of the two-state busy beaver, five records.
pub(crate) const BEAVER: &[u8; 69] = b"\
    \x44\x00\x60\x00\x06\x00\x0D\x00\x28\
    \x31\x21\x80\x21\x40\x11\x40\x31\x80\x30\x00\x31\x00\
    \x00\x00\x00\x10\x00\x00\x00\
    \x00\x00\x00\x03\x00\x04\x50\x00\
    \x00\x00\x00\x03\x00\x10\x00\x00\
    \x00\x00\x20\x01\x08\x22\x10\x00\
    \x00\x00\x40\x05\x10\x41\x00\x00\
    \x00\x00\x60\x00\x04\x32\x00\x00";

pub(crate) const BEAVER_CELLS: usize = 364;

pub(crate) const BEAVER_REPORT: &str =
    "age 6\nshadow 1\nhurt 1\n.....\n...#.\n.....\n.....\n.....\ntape 00010131010000\n";
