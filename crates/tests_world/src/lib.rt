//! Floor: world. The tests of this floor's crates, of what no contract says: that calls which allocate succeed, and the bytes of
//! lines, typed anew.
#![tactic(auto)]

#[cfg(test)]
mod lines;
#[cfg(test)]
mod restyling;
#[cfg(test)]
mod workers;
