//! A gate, which keeps weak pulses back.
ghost use Rattle.std.specs.Prelude.{◌≡◌};
ghost use Rattle.line.specs.Gates.{gated, passes};

use crate::ending::LineFault;
use crate::event::Event;
use crate::line::Line;
use crate::threshold::Threshold;

/// A line on top of the line `below`: what comes through are its quiets, and its pulses from the threshold on.
#[derive(Drop)]
pub struct Gate<L> {
    below: L,
    threshold: Threshold,
}

impl<L: Line> Gate<L> {
    /// A gate over the line `below`.
    pub fn new(below: L, threshold: Threshold) -> Gate<L>
        ensures below { result.below ≡ below }
        ensures threshold { result.threshold ≡ threshold }
    {
        Gate { below, threshold }
    }
}

// Is `event` a quiet, or a pulse that `threshold` admits?
fn passes(threshold: Threshold, event: Event) -> bool
    ensures { result ≡ passes threshold event }
{
    match event {
        Event::Pulse(_, height) => threshold.admits(height),
        Event::Quiet(_) => true,
    }
}

impl<L: Line> Line for Gate<L> {
    ghost waits = { λ s. gated s.threshold (L.Line.waits s.below) };

    ghost ending = { λ s. L.Line.ending s.below };

    fn take(&mut self) -> Result<Option<Event>, LineFault> {
        while let Some(event) = self.below.take()? {
            if passes(self.threshold, event) {
                return Ok(Some(event));
            }
        }
        Ok(None)
    }
}
