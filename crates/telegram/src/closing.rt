//! The quiet that closes a telegram.
ghost use Rattle.std.specs.Prelude.{◌≡◌, ◌≤◌};
ghost use Rattle.telegram.specs.Limits.{longest_closing, shortest_closing};

use crate::refusal::Refusal;
use line::event::Ticks;

// The limits of a closing quiet, in ticks.
const SHORTEST_CLOSING: u32 = 72;

const LONGEST_CLOSING: u32 = 4000;

/// A closing quiet: 72 to 4,000 ticks.
// A type of its own, for the reason that stands at `Ticks`.
#[derive(Clone, Copy, PartialEq, Eq, Debug)]
pub struct Closing {
    ticks: Ticks,
    ghost long: { shortest_closing ≤ ticks.count },
    ghost short: { ticks.count ≤ longest_closing },
}

/// A closing quiet of so many ticks, refused by 10 below 72 or above 4,000.
impl TryFrom<u32> for Closing {
    type Error = Refusal;

    ghost use Rattle.telegram.specs.Closings.{ClosingMade};

    ghost try_from_gives = { ClosingMade };

    fn try_from(count: u32) -> Result<Closing, Refusal> {
        if !(SHORTEST_CLOSING..=LONGEST_CLOSING).contains(&count) {
            return Err(Refusal::ClosingOutOfRange);
        }
        let ticks = Ticks::try_from(count)?;
        Ok(Closing { ticks })
    }
}

impl Closing {
    /// The quiet's ticks.
    pub fn ticks(self) -> Ticks
        ensures { result ≡ self.ticks }
    {
        self.ticks
    }
}
