//! How a sender is made.
ghost use Rattle.std.specs.Prelude.{◌≡◌};
ghost use Rattle.std.specs.Result.{MatchResult};
ghost use Rattle.telegram.specs.Coding.{slots};
ghost use Rattle.telegram.specs.Handing.{First, waiting};
ghost use Rattle.telegram.specs.Rows.{row_bits};
ghost use Rattle.telegram.specs.Sending.{SenderRefused, Sends, sent};

use crate::closing::Closing;
use crate::kind::Kind;
use crate::refusal::Refusal;
use crate::row::Row;
use crate::sender::{Due, Sender};
use line::event::Height;

// What is due first of the row.
fn first_due(row: &Row) -> Option<Due>
    ensures { First (row_bits row.now) result }
{
    row.pulse_in(0).map(Due::Pulse)
}

impl<K: Kind> Sender<K> {
    /// A sender of `telegram` with pulses of this height and this closing quiet.
    pub fn with(telegram: K::Record, height: Height, closing: Closing) -> Sender<K>
        ensures high { result.height ≡ height }
        ensures long { result.closing ≡ closing.ticks }
        ensures list { waiting result.height result.closing result.due result.at (K.Kind.row_of result.telegram) ≡ sent height closing.ticks (slots (K.Kind.row_of telegram)) }
    {
        let due = first_due(&K::row(&telegram));
        Sender {
            telegram,
            height,
            closing: closing.ticks(),
            due,
            at: 0,
        }
    }

    /// A sender of `telegram` with pulses of `mv` millivolts and a closing quiet of `closing` ticks. A height above 8,191 is
    /// refused by 1; after that a closing quiet below 72 or above 4,000 is refused by 10.
    pub fn new(telegram: K::Record, mv: u16, closing: u32) -> Result<Sender<K>, Refusal>
        ensures { MatchResult result (λ s. Sends s.height s.closing (waiting s.height s.closing s.due s.at (K.Kind.row_of s.telegram)) (K.Kind.row_of telegram) mv closing) (SenderRefused mv closing) }
    {
        let height = Height::try_from(mv)?;
        let closing = Closing::try_from(closing)?;
        Ok(Sender::with(telegram, height, closing))
    }
}
