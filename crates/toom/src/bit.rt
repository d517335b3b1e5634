// The bit: the kind of cell with two values, of bytes 00 and 01.
ghost use Rattle.std.specs.Prelude.{◌≡◌, if◌then◌else◌};
ghost use Rattle.toom.specs.declared.bit.Bit.TheVariants.{Zero, One};
ghost use Rattle.toom.specs.Bit.{byte_of_bit, bit_of_byte};
ghost use Rattle.std.proofs.Common.{rules};

use crate::kind::Kind;

#[derive(Clone, Copy, PartialEq, Eq, Debug)]
pub enum Bit {
    Zero,
    One,
}

// One for true, Zero for false.
impl From<bool> for Bit {
    ghost from_gives = { λ set bit. bit ≡ (if set then One else Zero) };

    fn from(set: bool) -> Bit {
        if set { Bit::One } else { Bit::Zero }
    }
}

impl Kind for Bit {
    ghost byte_of = { byte_of_bit };

    ghost cell_of = { bit_of_byte };

    ghost reflexive = { Prim.search rules };

    ghost exact = { Prim.search rules };

    ghost bounded = { Prim.search rules };

    ghost readback = { Prim.search rules };

    ghost unique = { Prim.search rules };

    fn byte(self) -> u8 {
        match self {
            Bit::Zero => 0,
            Bit::One => 1,
        }
    }

    fn from_byte(byte: u8) -> Option<Bit> {
        match byte {
            0 => Some(Bit::Zero),
            1 => Some(Bit::One),
            _ => None,
        }
    }
}
