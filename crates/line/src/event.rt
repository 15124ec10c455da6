//! What stands on a line: pulses and quiets, within their limits.
ghost use Rattle.std.specs.Prelude.{◌≤◌};
ghost use Rattle.line.specs.Limits.{highest, longest};

mod in_word;
pub mod limits;
pub mod sides;
pub mod turned;

/// The side to which a pulse goes.
#[derive(Clone, Copy, PartialEq, Eq, Debug)]
pub enum Polarity {
    Negative,
    Positive,
}

/// The height of a pulse in millivolts: 0 to 8,191.
#[derive(Clone, Copy, PartialEq, Eq, PartialOrd, Ord, Debug)]
pub struct Height {
    mv: u16,
    ghost low: { mv ≤ highest },
}

/// The length of a quiet in ticks of 125 ns: 1 to 1,073,741,823.
// Two types, and no one type with its limits as parameters: each has a refusal and a reader by its own name.
#[derive(Clone, Copy, PartialEq, Eq, Debug)]
pub struct Ticks {
    count: u32,
    ghost some: { 1 ≤ count },
    ghost few: { count ≤ longest },
}

/// A pulse, which takes no time, or a quiet, which takes its ticks.
#[derive(Clone, Copy, PartialEq, Eq, Debug)]
pub enum Event {
    Pulse(Polarity, Height),
    Quiet(Ticks),
}
