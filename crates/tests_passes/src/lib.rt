//! Floor: passes. Tests of the crates of passes.
#![tactic(auto)]

#[cfg(test)]
mod levels;
#[cfg(test)]
mod schedules;
#[cfg(test)]
mod siblings;
#[cfg(test)]
mod told;
