// Rounds of the contest: the round file, playing it, and the line of a refusal.
#![tactic(auto)]

pub mod entry;
pub mod fault;
pub mod file_kind;
pub mod laws;
pub mod play;
pub mod refusal;
pub mod refused;
pub mod reply;
pub mod round;
