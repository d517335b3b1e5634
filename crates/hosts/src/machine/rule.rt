// The machine host: a Turing machine on cells of head and symbol.
ghost use Rattle.std.specs.Prelude.{◌≡◌, ◌<◌};
ghost use Rattle.hosts.specs.Deed.{deed_of, first_of};
ghost use Rattle.hosts.specs.Digit.{head_of, symbol_of};
ghost use Rattle.hosts.specs.MachineRule.{entry_of, machine_rule};

use crate::host::Host;
use crate::machine::Machine;
use crate::machine::deed::Deed;
use toom::kind::Kind;
use toom::machine_cell::MachineCell;

impl Machine {
    // What the cell does: one look at its slot.
    fn deed(&self, cell: MachineCell) -> Deed
        ensures { result ≡ deed_of (head_of cell) (symbol_of cell) (entry_of self.now cell) }
    {
        self.deeds[cell.byte() as usize]
    }
}

// The head that stays at the centre, else the one that the left cell sends, else the one that the right cell sends.
fn next_head(centre: Deed, left: Deed, right: Deed) -> u8
    ensures value { result ≡ first_of centre.stays left.goes_right right.goes_left }
    ensures fits { result < 16 }
{
    if centre.stays != 0 {
        centre.stays
    } else if left.goes_right != 0 {
        left.goes_right
    } else {
        right.goes_left
    }
}

impl Host<MachineCell> for Machine {
    ghost meaning = { machine_rule };

    fn answer(&self, left: MachineCell, centre: MachineCell, right: MachineCell) -> MachineCell
        ensures { result ≡ machine_rule self.now left centre right }
    {
        let own = self.deed(centre);
        let head = next_head(own, self.deed(left), self.deed(right));
        MachineCell::from(16 * head + own.symbol)
    }
}
