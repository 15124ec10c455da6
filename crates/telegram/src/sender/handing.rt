//! How a sender hands over.
ghost use Rattle.std.specs.Prelude.{◌≡◌, ◌*◌, ◌≤◌, Some, Ok};
ghost use Rattle.line.specs.declared.event.Event.TheVariants.{Pulse, Quiet};
ghost use Rattle.line.specs.declared.event.Height.{Height};
ghost use Rattle.line.specs.declared.event.Polarity.{Polarity};
ghost use Rattle.line.specs.Endings.{dry};
ghost use Rattle.line.specs.Events.{ticks};
ghost use Rattle.line.specs.Lines.{Took};
ghost use Rattle.telegram.specs.Handing.{Next, waiting};
ghost use Rattle.telegram.specs.Rows.{row_bits};
ghost use Rattle.telegram.specs.Sending.{slot_ticks};

use crate::kind::Kind;
use crate::row::Row;
use crate::sender::{Due, Sender, Step};
use line::ending::LineFault;
use line::event::{Event, Ticks};
use line::line::Line;

/// The ticks of a slot.
pub const SLOT_TICKS: u32 = 24;

// The way from slot `slot` of the row to its next pulse, if there is one more.
// No type for slots: few contracts have the limit, and all others go by any slot.
#[tactic(auto, using(crate::proofs::Coding::next_none))]
fn next_pulse(row: &Row, slot: usize) -> Option<Step>
    requires { slot ≤ 26 }
    ensures { Next slot (row_bits row.now) result }
{
    if let Some(polarity) = row.pulse_in(slot + 1) {
        return Some(Step { slots: 1, polarity });
    }
    let polarity = row.pulse_in(slot + 2)?;
    Some(Step { slots: 2, polarity })
}

// The quiet from a pulse to the next, one or two slots further on.
fn quiet(slots: usize) -> Event
    requires { (1 ≤ slots) × (slots ≤ 2) }
    ensures { result ≡ Quiet (ticks (slot_ticks * slots)) }
{
    Event::Quiet(Ticks::try_from(SLOT_TICKS * slots as u32).unwrap())
}

impl<K: Kind> Sender<K> {
    /// Hands over the next event, or none where all were; it never breaks. A pulse has the sender's height.
    pub fn hand_over(&mut self) -> Option<Event>
        ensures taken { Took (waiting self.old.height self.old.closing self.old.due self.old.at (K.Kind.row_of self.old.telegram)) dry (Ok result) (waiting self.new.height self.new.closing self.new.due self.new.at (K.Kind.row_of self.new.telegram)) dry }
        ensures height { (p : Polarity) (h : Height) → result ≡ Some (Pulse p h) → h ≡ self.old.height }
    {
        match self.due? {
            Due::Pulse(polarity) => {
                self.due = Some(Due::Quiet);
                Some(Event::Pulse(polarity, self.height))
            }
            Due::Quiet => match next_pulse(&K::row(&self.telegram), self.at) {
                Some(step) => {
                    self.due = Some(Due::Pulse(step.polarity));
                    self.at += step.slots;
                    Some(quiet(step.slots))
                }
                None => {
                    self.due = None;
                    Some(Event::Quiet(self.closing))
                }
            },
        }
    }
}

impl<K: Kind> Line for Sender<K> {
    ghost waits = { λ s. waiting s.height s.closing s.due s.at (K.Kind.row_of s.telegram) };

    ghost ending = { λ s. dry };

    fn take(&mut self) -> Result<Option<Event>, LineFault> {
        Ok(self.hand_over())
    }
}
