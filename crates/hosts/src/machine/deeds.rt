// The deeds of a machine's cells, worked out from its table.
ghost use Rattle.std.specs.Prelude.{◌≡◌, ℕ, ◌/◌, length, Some};
ghost use Rattle.hosts.specs.Deed.{deed_of, low_digit, Done};
ghost use Rattle.hosts.specs.Sent.{sent};

use crate::entry::{Entry, Motion};
use crate::machine::deed::Deed;

// The state that the entry enters, if it moves the head so, else 0.
fn head_sent(entry: Entry, motion: Motion) -> u8
    ensures { result ≡ (sent motion (Some entry)).value }
{
    if entry.motion == motion {
        entry.next
    } else {
        0
    }
}

// What the cell of a slot does, by what the slot holds.
fn deed(slot: usize, entry: Option<Entry>) -> Deed
    ensures { result ≡ deed_of (low_digit (slot / 16)) (low_digit slot) entry }
{
    match entry {
        None => Deed {
            symbol: (slot % 16) as u8,
            stays: (slot / 16 % 16) as u8,
            goes_left: 0,
            goes_right: 0,
        },
        Some(entry) => Deed {
            symbol: entry.symbol,
            stays: head_sent(entry, Motion::Stay),
            goes_left: head_sent(entry, Motion::Left),
            goes_right: head_sent(entry, Motion::Right),
        },
    }
}

pub(crate) fn deeds_of(table: &[Option<Entry>]) -> [Deed; 256]
    requires { length table.now ≡ 256 }
    ensures long { length result ≡ 256 }
    ensures each { (i : ℕ) → Done table.now result i }
{
    let mut deeds = [deed(0, None); 256];
    for slot in 0..256 {
        deeds[slot] = deed(slot, table[slot]);
    }
    deeds
}
