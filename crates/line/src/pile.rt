//! A pile of three layers, as an example of what any pile means.
ghost use Rattle.line.specs.Piles.{PileTakes};

use crate::ending::LineFault;
use crate::event::Event;
use crate::gate::Gate;
use crate::line::Line;
use crate::turn::Turn;

/// Takes from a gate on a turn on a gate on any line: the lower gate keeps weak pulses back, the turn exchanges the
/// polarities of what comes through, the upper gate keeps back again, and the lowest line's ending comes up as it is.
pub fn take_piled<L: Line>(pile: &mut Gate<Turn<Gate<L>>>) -> Result<Option<Event>, LineFault>
    ensures { PileTakes L.Line.waits L.Line.ending pile.old result pile.new }
{
    pile.take()
}
