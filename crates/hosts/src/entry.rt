// One entry of a machine's table: what a live head does.
ghost use Rattle.std.specs.Prelude.{◌<◌};

#[derive(Clone, Copy, PartialEq, Eq, Debug)]
pub enum Motion {
    Stay,
    Left,
    Right,
}

// A number that no motion has.
#[derive(Clone, Copy, PartialEq, Eq, Debug)]
pub struct UnknownMotion;

// The motion that has this number in a machine file.
impl TryFrom<u8> for Motion {
    ghost use Rattle.std.specs.Prelude.{◌≡◌, ◌≤◌, MatchResult};
    ghost use Rattle.hosts.specs.Table.{motion_code};

    type Error = UnknownMotion;

    ghost try_from_gives = { λ code outcome. MatchResult outcome (λ motion. motion_code motion ≡ code) (λ _. 3 ≤ code) };

    fn try_from(code: u8) -> Result<Motion, UnknownMotion> {
        match code {
            0 => Ok(Motion::Stay),
            1 => Ok(Motion::Left),
            2 => Ok(Motion::Right),
            _ => Err(UnknownMotion),
        }
    }
}

// The state to enter, the symbol to write and the motion of the head.
#[derive(Clone, Copy, PartialEq, Eq, Debug)]
pub struct Entry {
    pub next: u8,
    pub symbol: u8,
    pub motion: Motion,
    ghost next_fits: { next < 16 },
    ghost symbol_fits: { symbol < 16 },
}
