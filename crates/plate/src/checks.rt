// The questions of lay and strike that need no plate: they are of the shape and the kind alone. Each asks of plain numbers, which may be no shape.
ghost use Rattle.std.specs.Prelude.{◌≡◌, length, Some, None, MatchResult};
ghost use Rattle.toom.specs.Shadow.{IsShadow, no_marks};
ghost use Rattle.hosts.specs.Refusal.{ask_each};
ghost use Rattle.plate.specs.Faults.{lay_fault, strike_fault};
ghost use Rattle.plate.specs.LayCall.{tape_questions, lay_questions};
ghost use Rattle.plate.specs.StrikeCall.{place_questions};

use crate::fault::{LayFault, StrikeFault};
use crate::laid::MAX_PLANES;
use crate::shape::Shape;
use crate::strike::Strike;
use toom::kind::Kind;
use toom::shadow::Shadow;

// Each byte of the tape has to name a cell.
fn check_tape<C: Kind>(tape: &[u8]) -> Result<(), LayFault>
    ensures { MatchResult result (λ _. ask_each (tape_questions C.cell_of tape.now) (length tape.now) ≡ None) (λ e. ask_each (tape_questions C.cell_of tape.now) (length tape.now) ≡ Some (lay_fault e)) }
{
    for (index, byte) in tape.iter().enumerate() {
        if C::from_byte(*byte).is_none() {
            return Err(LayFault::Byte { index });
        }
    }
    Ok(())
}

// The first question of a lay that fails; or, if none does, the empty shadow that the lay would begin with.
pub fn check_lay<C: Kind>(
    planes: usize,
    side: usize,
    tape: &[u8],
    memory: usize,
) -> Result<Shadow, LayFault>
    ensures { MatchResult result (λ s. (lay_questions C.cell_of planes side tape.now memory ≡ None) × IsShadow s side no_marks) (λ e. lay_questions C.cell_of planes side tape.now memory ≡ Some (lay_fault e)) }
{
    if planes < 1 || planes > MAX_PLANES {
        return Err(LayFault::Planes);
    }
    let shadow = Shadow::empty(side).ok_or(LayFault::Side)?;
    if tape.len() != planes {
        return Err(LayFault::Tape);
    }
    let shape = Shape {
        planes,
        side: shadow.side(),
    };
    if shape.size() > memory {
        return Err(LayFault::Memory);
    }
    check_tape::<C>(tape)?;
    Ok(shadow)
}

// The cell of the byte of a strike on a plate of this shape, or the first question that fails.
pub fn check_strike<C: Kind>(planes: usize, side: usize, strike: Strike) -> Result<C, StrikeFault>
    ensures { MatchResult result (λ x. (place_questions C.cell_of planes side strike.plane strike.row strike.column strike.byte ≡ None) × (C.cell_of strike.byte ≡ Some x)) (λ e. place_questions C.cell_of planes side strike.plane strike.row strike.column strike.byte ≡ Some (strike_fault e)) }
{
    if strike.plane >= planes {
        return Err(StrikeFault::Plane);
    }
    if strike.row >= side || strike.column >= side {
        return Err(StrikeFault::Place);
    }
    C::from_byte(strike.byte).ok_or(StrikeFault::Byte)
}
