// Hosts: functions of three neighbouring cells. Wolfram's elementary rules on bits, and Turing machines on machine cells.
#![tactic(auto)]

pub mod elementary;
pub mod entry;
pub mod host;
pub mod laws;
pub mod machine;
