//! Floor: document. The tests of the readers of sheets, of style attributes and of a script's lines, of what no contract
//! says: rows typed from the standards, limits at their numbers, and that calls which allocate succeed.
#![tactic(auto)]

#[cfg(test)]
mod commands;
#[cfg(test)]
mod sheets;
