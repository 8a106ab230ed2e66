//! Floor: numbers and bytes. The tests of its crates, of what no contract says: outside vectors, constants and limits typed
//! from their source, and that calls with memory to spare succeed.
#![tactic(auto)]

#[cfg(test)]
mod decimals;
#[cfg(test)]
mod lines;
#[cfg(test)]
mod scripts;
#[cfg(test)]
mod tokens;
