// A strike: the copy that it wounds, and what that copy becomes.
#[derive(Clone, Copy, PartialEq, Eq, Debug)]
pub struct Strike {
    pub plane: usize,
    // The place on the torus.
    pub row: usize,
    pub column: usize,
    // Names the cell that the copy becomes.
    pub byte: u8,
}
