//! Whole lines, put where events are kept.
ghost use Rattle.std.specs.Prelude.{◌≡◌, ℕ, List, ◌++◌, IfOk, OnOk};
ghost use Rattle.line.specs.declared.event.Event.{Event};
ghost use Rattle.line.specs.Pours.{Poured};

use crate::ending::Ending;
use crate::event::Event;
use crate::line::Line;

/// Where events are kept, one behind the other.
pub trait Sink {
    /// Why an event is not kept.
    type Error;

    /// What is kept, as numbers.
    ghost kept: { Self → List ℕ };

    /// What an event is kept as.
    ghost kept_as: { Event → List ℕ };

    /// Puts `event` behind what is kept.
    fn put(&mut self, event: Event) -> Result<(), Self::Error>
        ensures { OnOk result (kept self.new ≡ kept self.old ++ kept_as event) };
}

/// Puts each event that waits in `line` into `sink`, and answers the ending.
pub fn pour<L: Line, S: Sink>(line: &mut L, sink: &mut S) -> Result<Ending, S::Error>
    ensures { IfOk result (λ end. Poured L.Line.waits L.Line.ending S.Sink.kept_as line.old (S.Sink.kept sink.old) end line.new (S.Sink.kept sink.new)) }
{
    // Two matches: with `transpose` in their place a recording of short answers cost `asisend` a sixth more instructions.
    loop {
        let taken = match line.take() {
            Ok(taken) => taken,
            Err(fault) => return Ok(Err(fault)),
        };
        match taken {
            Some(event) => sink.put(event)?,
            None => return Ok(Ok(())),
        }
    }
}
