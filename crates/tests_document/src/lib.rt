//! Floor: document. Tests of the crates of this floor, and nothing else.
#![tactic(auto)]

#[cfg(test)]
mod alike;
#[cfg(test)]
mod cascade;
#[cfg(test)]
mod matching;
#[cfg(test)]
mod selectors;
#[cfg(test)]
mod tree;
#[cfg(test)]
mod tree_limits;
#[cfg(test)]
mod winners;
