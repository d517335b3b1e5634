// The report of a plate: text in its caller's bytes.
#![tactic(auto)]

pub mod fault;
pub mod laws;
mod page;
pub mod report;
pub mod text;
