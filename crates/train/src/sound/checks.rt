//! The checks of a train that is sound so far.
ghost use Rattle.std.specs.Prelude.{◌≡◌, ◌<◌, ◌≤◌, [], ◌∷◌, Decides};
ghost use Rattle.telegram.specs.Rows.{row_bits};
ghost use Rattle.train.specs.Checks.{CheckLaws, Checked, Near, Passes, SlotAfter, caught, next_even, rest_cause, top};

use crate::fault::Cause;
use crate::pulse::TimedPulse;
use crate::sound::Sound;
use crate::windows::slot_of;
use line::event::Polarity;

// The highest slot of any train.
const TOP: u16 = 26;

// The slot of a later pulse at `t`, if it is past slot `before`.
fn slot_after(before: u16, t: u16) -> Option<u16>
    ensures { SlotAfter before t result }
{
    slot_of(t).filter(|slot| *slot > before)
}

// Whether an even slot between slots `before` and `slot` was passed over.
fn passes_even(before: u16, slot: u16) -> bool
    requires { before ≤ top }
    ensures value { Decides result (Passes before slot) }
    ensures near { Decides result (next_even before < slot) }
{
    slot > before / 2 * 2 + 2
}

impl Sound {
    // Checks one more pulse: answers its slot, or the first cause of fault that it gives, in the order timing, length,
    // alternation, no information.
    #[tactic(auto, using(crate::proofs::Checking::check_laws))]
    pub(crate) fn check_later(&self, pulse: TimedPulse) -> Result<u16, Cause>
        ensures value { Checked self.now.slot self.now.polarity pulse result }
        ensures near { Near self.now.slot result }
        ensures laws { CheckLaws self.now.slot self.now.polarity pulse }
    {
        let slot = slot_after(self.slot, pulse.t).ok_or(Cause::Timing)?;
        if slot > TOP {
            Err(Cause::Length)
        } else if pulse.polarity == self.polarity {
            Err(Cause::Alternation)
        } else if passes_even(self.slot, slot) {
            Err(Cause::NoInformation)
        } else {
            Ok(slot)
        }
    }

    // Checks the train at its rest, where `good` is its only good last slot: answers the first cause of fault, if there is
    // one, in the order length, end bit, parity.
    pub(crate) fn check_rest(&self, good: u16) -> Result<(), Cause>
        ensures { caught result ≡ rest_cause (good ∷ []) self.now.slot self.now.polarity (row_bits self.now.row) }
    {
        if self.slot != good {
            Err(Cause::Length)
        } else if self.polarity == Polarity::Negative {
            Err(Cause::EndBit)
        } else if self.row.odd_between() {
            Err(Cause::Parity)
        } else {
            Ok(())
        }
    }
}
