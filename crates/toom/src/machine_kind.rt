// The machine cell as a kind: its byte has the head for its first hexadecimal digit and the symbol for its second.
ghost use Rattle.toom.specs.MachineCell.{byte_of_machine_cell, machine_cell_of_byte};
ghost use Rattle.std.specs.Prelude.{Some};
ghost use Rattle.std.proofs.lemmas.Bool.{eqb-true};
ghost use Rattle.toom.specs.MachineCells.{cells_equal};
ghost use Rattle.std.proofs.Common.{ap, arith, rules};

use crate::kind::Kind;
use crate::machine_cell::MachineCell;

impl Kind for MachineCell {
    ghost byte_of = { byte_of_machine_cell };

    ghost cell_of = { machine_cell_of_byte };

    ghost reflexive = { Prim.search rules };

    ghost exact = { λ x y e. cells_equal x y (eqb-true _ _ e) };

    ghost bounded = { λ x. x.fits };

    ghost readback = { λ x. ap Some (cells_equal _ x (omega arith)) };

    ghost unique = { Prim.search rules };

    fn byte(self) -> u8 {
        self.byte
    }

    fn from_byte(byte: u8) -> Option<MachineCell> {
        Some(MachineCell::from(byte))
    }
}
