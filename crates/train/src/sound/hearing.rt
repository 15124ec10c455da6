//! How a train is heard pulse by pulse.
ghost use Rattle.std.specs.Prelude.{◌≡◌, ◌+◌, ◌-◌, ◌%◌, ◌<◌, ◌≤◌, length, Ok};
ghost use Rattle.telegram.specs.Rows.{row_bits};
ghost use Rattle.train.specs.Checks.{CheckLaws, Checked, next_even};
ghost use Rattle.train.specs.Sounds.{Begun, Follows, Grows, more_bits};

use crate::fault::{Cause, Fault};
use crate::pulse::TimedPulse;
use crate::sound::Sound;
use line::event::Polarity;
use telegram::row::Row;

// The bits of `row`, and one more for a pulse in the slot `slot` if that is even.
fn with_pulse(mut row: Row, slot: u16, polarity: Polarity) -> Row
    requires { length (row_bits row) < 14 }
    ensures value { row_bits result ≡ more_bits slot polarity (row_bits row) }
    ensures long { length (row_bits result) ≡ length (row_bits row) + (1 - slot % 2) }
{
    if slot % 2 == 0 {
        row.push(polarity == Polarity::Positive).unwrap();
    }
    row
}

impl Sound {
    /// A train's first pulse, which is to be negative: a positive one is fault 1 at pulse 1.
    pub fn begin(first: Polarity) -> Result<Sound, Fault>
        ensures { Begun first result }
    {
        if first == Polarity::Positive {
            return Err(Cause::Start.at(1, 0));
        }
        let mut row = Row::new();
        row.push(false).unwrap();
        Ok(Sound {
            count: 1,
            t: 0,
            slot: 0,
            polarity: first,
            row,
        })
    }

    // What is kept of the train with one more pulse, which is fair and in the slot `slot`.
    fn with(self, slot: u16, pulse: TimedPulse) -> Sound
        requires fair { Checked self.slot self.polarity pulse (Ok slot) }
        requires near { slot ≤ next_even self.slot }
        ensures { Follows self pulse result }
    {
        Sound {
            count: self.count + 1,
            t: pulse.t,
            slot,
            polarity: pulse.polarity,
            row: with_pulse(self.row, slot, pulse.polarity),
        }
    }

    /// One more pulse of the train, or the fault of that pulse: 2 timing, 7 length, 3 alternation, 4 no information, asked in
    /// this order.
    #[tactic(auto, using(crate::proofs::Growing::spoils))]
    pub fn later(self, pulse: TimedPulse) -> Result<Sound, Fault>
        ensures value { Grows self pulse result }
        ensures checks { CheckLaws self.slot self.polarity pulse }
    {
        let slot = self
            .check_later(pulse)
            .map_err(|cause| cause.at(self.count + 1, pulse.t))?;
        Ok(self.with(slot, pulse))
    }
}
