//! Floor: values. The tests of this floor's crates, of what no contract says: the tables of properties, colours
//! and lists against rows typed from the standards, and that calls which allocate succeed.
#![tactic(auto)]

#[cfg(test)]
mod colors;
#[cfg(test)]
mod copies;
#[cfg(test)]
mod easings;
#[cfg(test)]
mod limits;
#[cfg(test)]
mod lists;
#[cfg(test)]
mod parts;
#[cfg(test)]
mod properties;
#[cfg(test)]
mod reading;
#[cfg(test)]
mod steps;
#[cfg(test)]
mod values;
