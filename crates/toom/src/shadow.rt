// The shadow: one plane of bits, the marked places of a torus, with a 64-bit word for each row.
ghost use Rattle.std.specs.Prelude.{◌≡◌, ℕ, ◌≤◌, length, slice_index};
ghost use Rattle.toom.specs.Rows.{Narrow};
ghost use Rattle.toom.specs.Torus.{Side};

pub mod calls;
pub mod stretches;

// The rows and columns that a torus may have. The vote of a place on a torus of one row would be of one cell; and a row has to fit its word.
pub const MIN_SIDE: usize = 2;

pub const MAX_SIDE: usize = 64;

// A row begins with column 0 at its highest bit. The bits past the side, and the rows past it, are zero: so a shadow is its side and its marked
// places, and nothing else. The rows are an array of the largest size, since nothing here allocates.
#[derive(Clone, Copy, Eq)]
pub struct Shadow {
    side: usize,
    rows: [u64; MAX_SIDE],
    ghost sized: { Side side },
    ghost tall: { length rows ≡ 64 },
    ghost narrow: { (r : ℕ) → Narrow side (slice_index rows r) },
    ghost beyond: { (r : ℕ) → side ≤ r → slice_index rows r ≡ 0 },
}
