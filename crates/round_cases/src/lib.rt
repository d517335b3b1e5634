// Reports and rounds, tested: the text of reports, rounds played, every refusal of a play, and the line of a refusal.
#![tactic(auto)]

#[cfg(test)]
mod files;
#[cfg(test)]
mod outputs;
#[cfg(test)]
mod refused;
#[cfg(test)]
mod round_refusals;
#[cfg(test)]
mod whole_reports;
#[cfg(test)]
mod whole_rounds;
