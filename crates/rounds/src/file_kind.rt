// The kind of cell that a round file says.
ghost use Rattle.std.specs.Prelude.{◌≡◌};
ghost use Rattle.rounds.specs.FileKind.{file_kind};

#[derive(Clone, Copy, PartialEq, Eq, Debug)]
pub enum FileKind {
    Bits,
    MachineCells,
    // A number that no host has: of the numbers 0 and 1, which can be written here, no file gives this case.
    Other(u8),
}

// The kind of this number: 0 bits, 1 machine cells.
impl From<u8> for FileKind {
    ghost from_gives = { λ number kind. kind ≡ file_kind number };

    fn from(number: u8) -> FileKind {
        match number {
            0 => FileKind::Bits,
            1 => FileKind::MachineCells,
            _ => FileKind::Other(number),
        }
    }
}
