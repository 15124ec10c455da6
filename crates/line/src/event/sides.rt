//! Polarities from truth values.
ghost use Rattle.std.specs.Prelude.{◌≡◌};
ghost use Rattle.line.specs.Sides.{polarity_of};

use crate::event::Polarity;

/// Positive for true, negative for false.
impl From<bool> for Polarity {
    ghost from_gives = { λ b r. r ≡ polarity_of b };

    fn from(positive: bool) -> Polarity {
        if positive {
            Polarity::Positive
        } else {
            Polarity::Negative
        }
    }
}
