//! Floor: values. The tests of `shorthand_text`, of what no contract says: its table of names and what shorthands declare
//! against rows typed from the standards, and that calls which allocate succeed.
#![tactic(auto)]

#[cfg(test)]
mod shorthands;
