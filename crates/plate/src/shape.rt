// The shape of a plate: how many planes it has and the side of each, which settle where its cells lie in the memory. The
// memory goes beside it: each function is passed the whole slice.
ghost use Rattle.std.specs.Prelude.{◌≡◌, ◌*◌, ◌≤◌};
ghost use Rattle.toom.specs.Torus.{Side};
ghost use Rattle.plate.specs.Layout.{size_of};

#[derive(Clone, Copy)]
pub(crate) struct Shape {
    pub(crate) planes: usize,
    pub(crate) side: usize,
    ghost some: { 1 ≤ planes },
    ghost few: { planes ≤ 4096 },
    ghost sized: { Side side },
}

impl Shape {
    // How many cells a plane has.
    pub(crate) fn area(self) -> usize
        ensures { result ≡ self.side * self.side }
    {
        self.side * self.side
    }

    // How many copies the planes have.
    pub(crate) fn copies(self) -> usize
        ensures { result ≡ self.planes * (self.side * self.side) }
    {
        self.planes * (self.side * self.side)
    }

    // How many cells a plate of this shape uses.
    pub(crate) fn size(self) -> usize
        ensures { result ≡ size_of self.planes self.side }
    {
        2 * self.copies() + 2 * self.planes
    }
}
