//! Answers, which a station sends.
ghost use Rattle.std.specs.Prelude.{◌<◌};

pub mod coding;
pub mod making;

/// What an answer holds: a nibble of 0 to 15.
#[derive(Clone, Copy, PartialEq, Eq, Debug)]
pub struct Answer {
    pub nibble: u8,
    ghost low: { nibble < 16 },
}
