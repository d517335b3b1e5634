// Reads marked places of a torus from standard input, and prints their shadow after each vote, or what is wrong with the input.
#![tactic(auto)]

use crate::input::read_shadow;
use crate::trace::thinning;
use std::io::Read;
use std::process::ExitCode;

mod input;
mod lines;
#[cfg(test)]
mod tests;
mod trace;

fn main(rt: HostRuntime) -> anyhow::Result<ExitCode> {
    let heap = rt.alloc();
    let mut text = Vec::new(heap);
    rt.stdin().read_to_end(&mut text)?;
    match read_shadow(text.as_slice()) {
        Ok(shadow) => {
            rt.print(thinning(heap, shadow)?)?;
            Ok(ExitCode::SUCCESS)
        }
        Err(fault) => {
            rt.eprintln(fault)?;
            Ok(ExitCode::FAILURE)
        }
    }
}
