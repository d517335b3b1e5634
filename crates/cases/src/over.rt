// A plate over its caller's cells: a function that works through a plate can say what the cells are in the end.
ghost use Rattle.std.specs.Prelude.{◌≡◌, MatchResult};
ghost use Rattle.plate.specs.LayCall.{CellsLaid};

use plate::fault::LayFault;
use plate::plate::Plate;
use toom::kind::Kind;

pub fn lay_over<C: Kind>(cells: &mut [C], tape: &[u8]) -> Result<(), LayFault>
    ensures { MatchResult result (λ _. CellsLaid C.cell_of 1 2 tape.now cells.old cells.new) (λ _. cells.new ≡ cells.old) }
{
    let mut plate = Plate::new(cells);
    plate.lay(1, 2, tape)
}
