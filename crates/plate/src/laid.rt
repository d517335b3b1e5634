// What a laid plate keeps beside its cells: the number of its planes, its age and its shadow, whose side is that of the planes.
ghost use Rattle.std.specs.Prelude.{◌≡◌, ◌≤◌};
ghost use Rattle.toom.specs.Shadow.{side_of_shadow};

use crate::shape::Shape;
use toom::shadow::Shadow;

pub const MAX_PLANES: usize = 4096;

pub const MAX_AGE: u32 = 1_048_575;

#[derive(Clone, Copy)]
pub struct Laid {
    pub planes: usize,
    pub age: u32,
    pub shadow: Shadow,
    ghost some: { 1 ≤ planes },
    ghost few: { planes ≤ 4096 },
    ghost young: { age ≤ 1048575 },
}

impl Laid {
    pub(crate) fn shape(&self) -> Shape
        ensures planes { result.planes ≡ self.now.planes }
        ensures side { result.side ≡ side_of_shadow self.now.shadow }
    {
        Shape {
            planes: self.planes,
            side: self.shadow.side(),
        }
    }
}
