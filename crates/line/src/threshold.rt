//! The threshold of a gate, which is made before the gate is.
ghost use Rattle.std.specs.Prelude.{◌≡◌};
ghost use Rattle.line.specs.Gates.{admits, ThresholdMade};

use crate::event::Height;
use crate::refusal::Refusal;

/// The least height that a gate lets through.
#[derive(Clone, Copy, PartialEq, Eq, Debug)]
pub struct Threshold {
    least: Height,
}

/// The threshold of so many millivolts, refused by 1 above 8,191.
impl TryFrom<u16> for Threshold {
    type Error = Refusal;

    ghost try_from_gives = { ThresholdMade };

    fn try_from(mv: u16) -> Result<Threshold, Refusal> {
        let least = Height::try_from(mv)?;
        Ok(Threshold { least })
    }
}

impl Threshold {
    /// Is `height` at least the threshold?
    pub fn admits(self, height: Height) -> bool
        ensures { result ≡ admits self height }
    {
        self.least <= height
    }
}
