//! Floor: element and frame. The tests of this floor's crates, of what no contract says: that calls which allocate
//! succeed.
#![tactic(auto)]

#[cfg(test)]
mod effects;
#[cfg(test)]
mod elements;
#[cfg(test)]
mod events;
#[cfg(test)]
mod ticks;
