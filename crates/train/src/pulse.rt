//! The pulses of a train.
use line::event::Polarity;

/// A pulse of a train, `t` ticks after the first.
#[derive(Clone, Copy, PartialEq, Eq, Debug)]
pub struct TimedPulse {
    pub t: u16,
    pub polarity: Polarity,
}
