// Toom's vote of three cells, of any kind.
ghost use Rattle.std.specs.Prelude.{◌≡◌};
ghost use Rattle.toom.specs.Vote.{vote_of};

use crate::kind::Kind;

// Toom's vote: north and east decide if they are the same cell; if not, the own cell stays.
pub fn vote<C: Kind>(north: C, east: C, own: C) -> C
    ensures { result ≡ vote_of C.eq north east own }
{
    if north == east { north } else { own }
}
