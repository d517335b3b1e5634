// Scripts of strikes, and the run that plays one on a plate.
#![tactic(auto)]

pub mod checks;
pub mod fault;
pub mod laws;
pub mod record;
pub mod run;
pub mod script;
