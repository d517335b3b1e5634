// A kind of cell: two of its cells can be compared, each has a byte, and a byte may name a cell.
ghost use Rattle.std.specs.Prelude.{◌≡◌, ℕ, ◌<◌, true, Some, Option};

// `byte` and `from_byte` are no `From` and `TryFrom`: those tell by a relation what a conversion gives, and the laws need the functions.
pub trait Kind: Copy + Eq {
    // A cell's byte.
    ghost byte_of: { Self → ℕ };

    // The cell that a byte names, or none.
    ghost cell_of: { ℕ → Option Self };

    fn byte(self) -> u8
        ensures { result ≡ byte_of self };

    fn from_byte(byte: u8) -> Option<Self>
        ensures { result ≡ cell_of byte };

    // Sameness says yes of a cell and itself, and only of equal cells.
    ghost reflexive: { (x : Self) → Self.eq x x ≡ true };

    ghost exact: { (x y : Self) → Self.eq x y ≡ true → x ≡ y };

    // A cell's byte is one, below 256; and `byte_of` and `cell_of` undo each other, as far as a byte names a cell.
    ghost bounded: { (x : Self) → byte_of x < 256 };

    ghost readback: { (x : Self) → cell_of (byte_of x) ≡ Some x };

    ghost unique: { (b : ℕ) (x : Self) → b < 256 → cell_of b ≡ Some x → byte_of x ≡ b };
}
