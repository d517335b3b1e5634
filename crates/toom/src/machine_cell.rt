// The machine cell: the kind of cell made of head and symbol, two numbers up to 15. A head that is 0 stands for none.
ghost use Rattle.std.specs.Prelude.{◌<◌};

pub mod calls;

// It is its byte, 16 × head + symbol, so that it takes one byte of memory.
#[derive(Clone, Copy, PartialEq, Eq, Debug)]
pub struct MachineCell {
    pub(crate) byte: u8,
    ghost fits: { byte < 256 },
}
