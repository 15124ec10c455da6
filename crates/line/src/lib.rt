//! Events on the cable, and lines of them.
//!
//! A line is anything that hands over events one by one and then tells how it ended. A recorder's words are a line, and a
//! gate or a turn on top of any line makes a line again.
#![tactic(auto)]

mod bits;
pub mod ending;
pub mod event;
pub mod gate;
pub mod line;
pub mod pile;
pub mod pour;
pub mod recording;
pub mod refusal;
#[cfg(test)]
mod tests;
pub mod threshold;
pub mod turn;
pub mod words;
