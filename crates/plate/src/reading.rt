// The reading of a plate: the majority of each plane. Shape and memory are two parameters, as in all sweeps: a struct of both for those that only
// read would be one more type beside them.
ghost use Rattle.std.specs.Prelude.{◌≡◌, ◌≤◌, ◌++◌, length, drop};
ghost use Rattle.std.specs.Option.{option_map};
ghost use Rattle.hosts.specs.Refusal.{ask_each};
ghost use Rattle.plate.specs.Layout.{size_of};
ghost use Rattle.plate.specs.ReadCall.{plane_question, read_refusal, reading};

use crate::majority::majority;
use crate::shape::Shape;
use toom::kind::Kind;

// The first plane that has no majority.
pub(crate) fn first_split<C: Kind>(cells: &[C], shape: Shape) -> Option<usize>
    requires { size_of shape.planes shape.side ≤ length cells.now }
    ensures { ask_each (plane_question C.eq cells.now shape.side) shape.planes ≡ option_map (read_refusal 16) result }
{
    let planes = cells[..shape.copies()].chunks_exact(shape.area());
    for (i, plane) in planes.enumerate() {
        if majority(plane).is_none() {
            return Some(i);
        }
    }
    None
}

// Writes the byte of each plane's majority, and 0 for a plane that has none.
pub(crate) fn write_reading<C: Kind>(cells: &[C], shape: Shape, out: &mut [u8])
    requires size { size_of shape.planes shape.side ≤ length cells.now }
    requires room { shape.planes ≤ length out.old }
    ensures { out.new ≡ reading C.eq C.byte_of shape.planes shape.side cells.now ++ drop shape.planes out.old }
{
    let planes = cells[..shape.copies()].chunks_exact(shape.area());
    // Not `iter_mut` in a `zip`, after which a proof knows none of the bytes.
    for (i, plane) in planes.enumerate() {
        out[i] = majority(plane).map_or(0, |cell| cell.byte());
    }
}
