// Kinds of cell, Toom's vote and the shadow of the struck places, with their laws.
#![tactic(auto)]

pub mod bit;
pub mod kind;
pub mod laws;
pub mod machine_cell;
pub mod machine_kind;
mod rows;
pub mod shadow;
pub mod vote;
