// A host: the rule by which a cell steps, from what it is itself and what its two neighbours are.
ghost use Rattle.std.specs.Prelude.{◌≡◌};

pub trait Host<C> {
    // The function. All code and proofs above use this alone.
    ghost meaning: { Self → C → C → C → C };

    // The function's value. A call alters nothing, so each gives the same answer.
    fn answer(&self, left: C, centre: C, right: C) -> C
        ensures { result ≡ meaning self.now left centre right };
}
