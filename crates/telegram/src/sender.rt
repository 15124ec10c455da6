//! A line that sends one telegram.
ghost use Rattle.std.specs.Prelude.{◌≤◌};

use crate::kind::Kind;
use line::event::{Height, Polarity, Ticks};

pub mod handing;
pub mod making;

/// What a sender hands over next.
// A state and no closures: a line hands over one event a call, so this has to be kept from call to call.
#[derive(Clone, Copy)]
pub(crate) enum Due {
    Pulse(Polarity),
    Quiet,
}

/// The way from one pulse of a row to the next.
#[derive(Clone, Copy)]
pub(crate) struct Step {
    slots: usize,
    polarity: Polarity,
}

/// A line of one telegram's pulses, all of one height, with quiets between them and a closing quiet at the end; then it is
/// dry. `at` is the slot of the pulse that is due, or that was handed over last.
#[derive(Drop)]
pub struct Sender<K: Kind> {
    telegram: K::Record,
    height: Height,
    closing: Ticks,
    due: Option<Due>,
    at: usize,
    ghost low: { at ≤ 26 },
}
