//! Bytes from an input, for the programs.
#![tactic(auto)]

pub mod reading;
#[cfg(test)]
mod tests;
