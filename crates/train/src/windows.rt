//! The slot that a pulse is in.
ghost use Rattle.train.specs.Windows.{Slot, WindowLaws};

use telegram::sender::handing::SLOT_TICKS;

// How many ticks earlier and later than on the tick of its slot a pulse may come.
const EARLY: u32 = 4;

const LATE: u32 = 8;

/// The slot of a later pulse, `t` ticks after the first: slot n for t from 24n - 4 to 24n + 8, so none below 20.
#[tactic(auto, using(crate::proofs::Checking::window_laws))]
pub fn slot_of(t: u16) -> Option<u16>
    ensures value { Slot t result }
    ensures laws { WindowLaws t }
{
    let n = (u32::from(t) + EARLY) / SLOT_TICKS;
    if n >= 1 && u32::from(t) <= SLOT_TICKS * n + LATE {
        Some(n as u16)
    } else {
        None
    }
}
