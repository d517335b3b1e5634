// The majority of cells, in two passes and with no table.
ghost use Rattle.std.specs.Prelude.{◌≡◌, ◌*◌, ◌<◌, length};
ghost use Rattle.plate.specs.ReadCall.{holders, majority_of};

use toom::kind::Kind;

// The only cell that can be the majority: unlike cells are paired off, and it is what is left over.
fn candidate<C: Kind>(plane: &[C], first: C) -> C
    ensures { (x : C) → length plane.now < 2 * holders C.eq x plane.now → x ≡ result }
{
    let mut cell = first;
    let mut left: usize = 0;
    for x in plane {
        if left == 0 {
            cell = *x;
            left = 1;
        } else if *x == cell {
            left += 1;
        } else {
            left -= 1;
        }
    }
    cell
}

// How many of the cells are this one.
fn count_same<C: Kind>(plane: &[C], cell: C) -> usize
    ensures { result ≡ holders C.eq cell plane.now }
{
    // A loop, without a branch on the data: `filter` and `count` branch at each cell, and of a `sum` it would be left to prove that it fits.
    let mut count = 0;
    for x in plane {
        count += usize::from(*x == cell);
    }
    count
}

pub fn majority<C: Kind>(plane: &[C]) -> Option<C>
    ensures { result ≡ majority_of C.eq plane.now }
{
    let first = plane.first()?;
    let cell = candidate(plane, *first);
    if count_same(plane, cell) > plane.len() / 2 {
        Some(cell)
    } else {
        None
    }
}
