// The healing plate.
#![tactic(auto)]

mod beside;
pub mod checks;
pub mod fault;
pub mod laid;
pub mod laws;
mod laying;
pub mod majority;
mod many;
mod mapping;
pub mod plate;
mod quick;
mod reading;
mod resting;
mod settling;
mod shape;
mod strand;
mod strands;
pub mod strike;
mod sweep;
mod wounds;
