//! Floor: time. The tests of this floor's crates and of the matching of transition lists, of what no contract says:
//! that calls which allocate succeed, and numbers typed from the standards.
#![tactic(auto)]

#[cfg(test)]
mod animations;
#[cfg(test)]
mod changing;
#[cfg(test)]
mod declarations;
#[cfg(test)]
mod entries;
#[cfg(test)]
mod events;
#[cfg(test)]
mod fading;
#[cfg(test)]
mod keyframe_samples;
#[cfg(test)]
mod matching;
#[cfg(test)]
mod names;
#[cfg(test)]
mod starting;
#[cfg(test)]
mod styles;
#[cfg(test)]
mod updates;
