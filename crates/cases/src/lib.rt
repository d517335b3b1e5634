// The worked examples of the rules, run as tests, and what a user of the library can prove through its contracts alone.
#![tactic(auto)]

#[cfg(test)]
mod elementary;
#[cfg(test)]
mod first_plate;
#[cfg(test)]
mod kinds;
#[cfg(test)]
mod machine_files;
#[cfg(test)]
mod machines;
pub mod over;
#[cfg(test)]
mod plate_refusals;
#[cfg(test)]
mod plates;
#[cfg(test)]
mod rings;
#[cfg(test)]
mod shadows;
#[cfg(test)]
mod votes;

// What a test builds could not be built. Each crate of tests has its own small helpers: to share one, it would have to be public, with a contract.
#[cfg(test)]
#[derive(Debug, Drop)]
struct Unbuilt;
