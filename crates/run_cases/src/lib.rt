// Scripts and runs, tested: the reader, every refusal, a run against its strikes and beats one by one, long runs, and many beats at once.
#![tactic(auto)]

#[cfg(test)]
mod at_once;
#[cfg(test)]
mod long_runs;
#[cfg(test)]
mod look;
#[cfg(test)]
mod many_beats;
#[cfg(test)]
mod records;
#[cfg(test)]
mod run_refusals;
#[cfg(test)]
mod scripts;
#[cfg(test)]
mod whole_runs;

// What a test builds could not be built. As `cases` has it, which is not shared: each crate of tests has its own small helpers.
#[cfg(test)]
#[derive(Debug, Drop)]
struct Unbuilt;
