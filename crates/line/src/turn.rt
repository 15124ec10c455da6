//! A turn, which exchanges the polarities.
ghost use Rattle.std.specs.Prelude.{◌≡◌, map};
ghost use Rattle.line.specs.Turns.{turned};

use crate::ending::LineFault;
use crate::event::Event;
use crate::line::Line;

/// A line on top of the line `below`, with negative for positive, as if the two wires were crossed.
#[derive(Drop)]
pub struct Turn<L> {
    below: L,
}

impl<L: Line> Turn<L> {
    /// A turn over the line `below`.
    pub fn new(below: L) -> Turn<L>
        ensures { result.below ≡ below }
    {
        Turn { below }
    }
}

impl<L: Line> Line for Turn<L> {
    ghost waits = { λ s. map turned (L.Line.waits s.below) };

    ghost ending = { λ s. L.Line.ending s.below };

    fn take(&mut self) -> Result<Option<Event>, LineFault> {
        Ok(self.below.take()?.map(Event::turned))
    }
}
