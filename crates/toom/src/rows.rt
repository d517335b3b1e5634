// Rows of bits in 64-bit words, from the highest bit down: the vote of a row, a mark in one, and its marked columns that stand one after another.
// A row is a plain word with the side beside it: a struct of both would keep the side once for each row.
ghost use Rattle.std.specs.Prelude.{◌≡◌, ◌↔◌, ℕ, ◌<◌, ◌≤◌, IsTrue, ◌||◌, All, length, ◌==◌, slice_index};
ghost use Rattle.std.specs.List.{sum_by};
ghost use Rattle.std.specs.Int.Count.{ones};
ghost use Rattle.toom.specs.Rows.{Narrow, column, RowVote, RowsVote};
ghost use Rattle.toom.specs.Spans.{SpanGiven};
ghost use Rattle.toom.specs.Torus.{Side, next};

// The row as its eastern neighbours see it: each column has the bit of the next, the last that of column 0.
pub(crate) fn turned(row: u64, side: usize) -> u64
    requires side { Side side }
    requires row { Narrow side row }
    ensures narrow { Narrow side result }
    ensures columns { (c : ℕ) → c < side → column result c ≡ column row (next side c) }
{
    row << 1 | row >> 63 << (64 - side)
}

// The vote of a row, three bits at each column: the northern row's, the next column's and its own.
pub(crate) fn vote_row(own: u64, north: u64, side: usize) -> u64
    requires side { Side side }
    requires own { Narrow side own }
    requires north { Narrow side north }
    ensures { RowVote side own north result }
{
    let east = turned(own, side);
    north & east | own & (north | east)
}

// The row with one column marked.
pub(crate) fn with_column(row: u64, at: usize, side: usize) -> u64
    requires side { Side side }
    requires row { Narrow side row }
    requires at { at < side }
    ensures narrow { Narrow side result }
    ensures columns { (c : ℕ) → c < side → column result c ≡ (column row c || c == at) }
{
    row | 1 << (63 - at)
}

// Columns of a row, one after another.
#[derive(Clone, Copy)]
pub(crate) struct Span {
    // the first of them
    pub(crate) column: usize,
    pub(crate) length: usize,
}

// The first marked columns of the row from this column on, as many as stand one after another, or none where no column from there on is marked.
pub(crate) fn first_span(row: u64, from: usize) -> Option<Span>
    ensures { SpanGiven row from result }
{
    if from >= 64 || row << from == 0 {
        return None;
    }
    let column = from + (row << from).leading_zeros() as usize;
    Some(Span {
        column,
        length: (row << column).leading_ones() as usize,
    })
}

// How many columns of these rows are marked.
pub(crate) fn count_columns(rows: &[u64]) -> usize
    requires { length rows.now ≤ 64 }
    ensures { result ≡ sum_by ones rows.now }
{
    rows.iter().map(|row| row.count_ones() as usize).sum()
}

// Whether none of these rows has a marked column.
pub(crate) fn are_clear(rows: &[u64]) -> bool
    ensures { IsTrue result ↔ All (λ row. row ≡ 0) rows.now }
{
    rows.iter().all(|row| *row == 0)
}

// Votes the rows of a torus. A row is voted before its southern one, so that both rows it needs are still old; the last needs the first. By index,
// since a row is written while the next one is read.
pub(crate) fn vote_rows(rows: &mut [u64], side: usize)
    requires side { Side side }
    requires within { side ≤ length rows.old }
    requires narrow { (r : ℕ) → Narrow side (slice_index rows.old r) }
    ensures { RowsVote side rows.old rows.new }
{
    let first = rows[0];
    let last = side - 1;
    for r in 0..last {
        rows[r] = vote_row(rows[r], rows[r + 1], side);
    }
    rows[last] = vote_row(rows[last], first, side);
}
