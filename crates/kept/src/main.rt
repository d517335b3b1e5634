// Plays the rounds of a kept file, and prints how many are replied to as the file says.
#![tactic(auto)]

use crate::player::Player;
use crate::tally::play_all;
use anyhow::Context;
use std::{env, fs};

mod kept;
mod player;
mod tally;

// The kept file is the one that is named.
fn run(rt: &HostRuntime) -> anyhow::Result<()> {
    let name = env::args(rt)?.nth(1).context("no kept file is named")?;
    let packed = fs::read(rt, &name)?;
    let mut player = Player::new(rt.alloc())?;
    let tally = play_all(&mut player, &packed, &mut rt.stdout())?;
    println!(rt; "{tally}")?;
    Ok(())
}

fn main(rt: HostRuntime) -> anyhow::Result<()> {
    run(&rt)
}
