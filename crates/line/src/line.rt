//! Lines, by what they mean.
ghost use Rattle.std.specs.Prelude.{List};
ghost use Rattle.line.specs.Endings.{Ending};
ghost use Rattle.line.specs.declared.event.Event.{Event};
ghost use Rattle.line.specs.Lines.{Takes};

use crate::ending::LineFault;
use crate::event::Event;

/// A source of events with an ending.
pub trait Line {
    /// The events that wait, the next one first.
    ghost waits: { Self → List Event };

    /// How the line ends once none waits.
    // Two members and no pair: what waits changes with each event that is taken, the ending never does.
    ghost ending: { Self → Ending };

    /// Hands over the next event; where none waits, reports the ending, and goes on doing so.
    fn take(&mut self) -> Result<Option<Event>, LineFault>
        ensures { Takes waits ending self.old result self.new };
}
