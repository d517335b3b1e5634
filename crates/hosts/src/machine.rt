// A Turing machine: its states, its symbols and its table.
ghost use Rattle.std.specs.Prelude.{◌≡◌, ℕ, length};
ghost use Rattle.hosts.specs.Deed.{Done};
ghost use Rattle.hosts.specs.Table.{Sizes, Used, Unused};

use crate::entry::Entry;
use crate::machine::deed::Deed;

mod deed;
mod deeds;
pub mod fault;
pub mod file;
pub mod rule;

// The entry of state q and symbol s stands in slot 16 × q + s; a slot that no state and symbol have is empty: so a machine is its
// numbers of states and symbols and its entries, and nothing else. The table has its largest size, since nothing here allocates.
#[derive(Clone, Copy)]
pub struct Machine {
    states: u8,
    symbols: u8,
    table: [Option<Entry>; 256],
    // What the cell of each slot does.
    deeds: [Deed; 256],
    ghost sized: { Sizes states symbols },
    ghost whole: { length table ≡ 256 },
    ghost used: { (i : ℕ) → Used states symbols table i },
    ghost unused: { (i : ℕ) → Unused states symbols table i },
    ghost told: { length deeds ≡ 256 },
    ghost done: { (i : ℕ) → Done table deeds i },
}
