//! Trains of pulses: the slots that their pulses are in, the checks, and the reading of a whole train as one kind of telegram.
#![tactic(auto)]

pub mod fault;
pub mod pulse;
pub mod reader;
pub mod sound;
#[cfg(test)]
mod tests;
pub mod windows;
