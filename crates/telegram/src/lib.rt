//! Telegrams: rows of bits, the kinds of telegram, and a line that sends one.
//!
//! Whatever is written over telegrams is written over any kind, by the laws that a kind keeps and its number of bits.
#![tactic(auto)]

pub mod answer;
mod bits;
pub mod closing;
pub mod kind;
pub mod refusal;
pub mod request;
pub mod row;
pub mod sender;
#[cfg(test)]
mod tests;
