// What a cell does in a step, so that a step looks up only what it needs.
ghost use Rattle.std.specs.Prelude.{◌<◌};

// Head 0 stands for no head, as in a cell.
#[derive(Clone, Copy)]
pub(crate) struct Deed {
    // The symbol that the cell has after the step.
    pub(crate) symbol: u8,
    // The head that stays at the cell: that of an entry that stays, or of a foreign cell.
    pub(crate) stays: u8,
    // The head that goes to the left cell, and to the right one.
    pub(crate) goes_left: u8,
    pub(crate) goes_right: u8,
    ghost symbol_fits: { symbol < 16 },
    ghost stays_fits: { stays < 16 },
    ghost left_fits: { goes_left < 16 },
    ghost right_fits: { goes_right < 16 },
}
