//! What this layer refuses, by number.
ghost use Rattle.std.specs.Prelude.{◌≡◌};
ghost use Rattle.line.specs.Refusals.{number};

/// Why a value was not made.
#[derive(Clone, Copy, PartialEq, Eq, Debug)]
pub enum Refusal {
    HeightOutOfRange = 1,
    TicksOutOfRange = 2,
}

impl Refusal {
    /// The number of the refusal: 1 for a height, 2 for ticks.
    // A name and no `From`, which would not say which number.
    pub fn number(self) -> u8
        ensures { result ≡ number self }
    {
        self as u8
    }
}
