//! What this layer refuses, by number.
ghost use Rattle.std.specs.Prelude.{◌≡◌};
ghost use Rattle.telegram.specs.Refusals.{event_refused, number};

use line::refusal::Refusal as EventRefusal;

/// Why a record or a sender was not made.
// No case that holds a refusal of `line`: a refusal of this layer could then have a number that nothing here is refused by.
#[derive(Clone, Copy, PartialEq, Eq, Debug)]
pub enum Refusal {
    /// A height above 8,191 mV.
    HeightOutOfRange,
    /// A field of a record outside its range.
    FieldOutOfRange,
    /// A closing quiet of fewer than 72 or more than 4,000 ticks.
    ClosingOutOfRange,
}

/// A refused height is one here too; refused ticks are those of a closing quiet, as this layer makes no others.
impl From<EventRefusal> for Refusal {
    ghost from_gives = { λ e r. r ≡ event_refused e };

    fn from(refusal: EventRefusal) -> Refusal {
        match refusal {
            EventRefusal::HeightOutOfRange => Self::HeightOutOfRange,
            EventRefusal::TicksOutOfRange => Self::ClosingOutOfRange,
        }
    }
}

impl Refusal {
    /// The number of the refusal: 1 for a height, 9 for a field of a record, 10 for a closing quiet.
    // A name and no `From`, which would not say which number.
    pub fn number(self) -> u8
        ensures { result ≡ number self }
    {
        match self {
            Refusal::HeightOutOfRange => 1,
            Refusal::FieldOutOfRange => 9,
            Refusal::ClosingOutOfRange => 10,
        }
    }
}
