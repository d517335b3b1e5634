// The calls of a machine cell.
ghost use Rattle.std.specs.Prelude.{◌≡◌, ◌≤◌, IfSome, IfNone};
ghost use Rattle.toom.specs.MachineCell.{byte_of_machine_cell, head_of_cell, symbol_of_cell};

use crate::machine_cell::MachineCell;

impl MachineCell {
    // The cell of a head and a symbol, or none where one of them is over 15.
    pub fn new(head: u8, symbol: u8) -> Option<MachineCell>
        ensures some { IfSome result (λ x. (head_of_cell x ≡ head) × (symbol_of_cell x ≡ symbol)) }
        ensures none { IfNone result (head ≤ 15 → symbol ≤ 15 → ⊥) }
    {
        if head > 15 || symbol > 15 {
            return None;
        }
        Some(MachineCell {
            byte: 16 * head + symbol,
        })
    }

    pub fn head(self) -> u8
        ensures { result ≡ head_of_cell self }
    {
        self.byte >> 4
    }

    pub fn symbol(self) -> u8
        ensures { result ≡ symbol_of_cell self }
    {
        self.byte & 15
    }
}

// The cell that the byte names: every byte names one.
impl From<u8> for MachineCell {
    ghost from_gives = { λ byte x. byte_of_machine_cell x ≡ byte };

    fn from(byte: u8) -> MachineCell {
        MachineCell { byte }
    }
}
