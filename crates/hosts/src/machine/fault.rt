// What is wrong with a machine file.

// `entry` is the index of the entry, from 0.
#[derive(Clone, Copy, PartialEq, Eq, Debug)]
pub enum MachineFault {
    // No first byte, or no state, or fewer than two symbols.
    Header,
    // Not one byte and two for each entry.
    Length,
    // The next state is not one of the machine's.
    Next { entry: usize },
    // The symbol is not one of the machine's.
    Symbol { entry: usize },
    // The move is neither 0, 1 nor 2.
    Move { entry: usize },
    // The last six bits are not zero.
    Padding { entry: usize },
}
