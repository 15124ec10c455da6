//! Events with their polarity changed.
ghost use Rattle.std.specs.Prelude.{◌≡◌, ◌+◌};
ghost use Rattle.line.specs.Turns.{opposite, turned};
ghost use Rattle.line.specs.Words.{sign};

use crate::event::{Event, Polarity};

impl Polarity {
    /// The other polarity.
    pub fn opposite(self) -> Polarity
        ensures value { result ≡ opposite self }
        ensures number { sign result + sign self ≡ 1 }
    {
        match self {
            Polarity::Negative => Polarity::Positive,
            Polarity::Positive => Polarity::Negative,
        }
    }
}

impl Event {
    /// The event with its polarity changed; a quiet has none.
    pub fn turned(self) -> Event
        ensures { result ≡ turned self }
    {
        match self {
            Event::Pulse(polarity, height) => Event::Pulse(polarity.opposite(), height),
            Event::Quiet(ticks) => Event::Quiet(ticks),
        }
    }
}
