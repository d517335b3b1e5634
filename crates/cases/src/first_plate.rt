// A first plate, as README.md shows it: what the test says before its last line stands there word for word.
use hosts::elementary::Elementary;
use plate::plate::Plate;
use plate::strike::Strike;
use std::test::Fail;
use toom::bit::Bit;

// Eight bits over a torus of side 3 take 2 × 8 × 9 + 2 × 8 cells. One of the nine copies of the last bit is struck, and the next vote mends it.
// Rule 110 answers one to 0, 0, 1 (for bit 6) and to 0, 1, 0 (for bit 7), and zero to 1, 0, 0 (for bit 0) and 0, 0, 0 (for the others).
#[test]
fn one_wrong_copy_does_no_harm(rt: HostRuntime) -> Result<(), Fail> {
    let mut cells = [Bit::Zero; 160];
    let mut plate = Plate::new(&mut cells);
    plate.lay(8, 3, &[0, 0, 0, 0, 0, 0, 0, 1])?;
    plate.strike(Strike {
        plane: 7,
        row: 1,
        column: 2,
        byte: 0,
    })?;
    plate.beat(&Elementary { rule: 110 })?;
    let mut tape = [9; 8];
    plate.read(&mut tape)?;
    assert_eq!(rt; tape, [0, 0, 0, 0, 0, 0, 1, 1]);
    Ok(())
}
