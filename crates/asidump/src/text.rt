//! The lines of a listing as text.
ghost use Rattle.asidump.specs.Text.{text_of};
ghost use Rattle.std.specs.Prelude.{Some};

use line::ending::Ending;
use line::event::{Event, Polarity};
use std::fmt;

/// What one line of a listing shows.
// A type for it: a crate may print only types of its own, and these two are of another crate.
#[derive(Clone, Copy)]
pub enum Item {
    Event(Event),
    Ending(Ending),
}

impl fmt::Display for Item {
    ghost output = { λ e. Some (text_of e) };

    fn fmt<W: fmt::Write>(&self, f: &mut fmt::Formatter<W>) -> fmt::Result {
        match self {
            Item::Event(event) => match event {
                Event::Pulse(polarity, height) => {
                    let mv = height.mv();
                    match polarity {
                        Polarity::Negative => write!(f, "pulse - {mv}"),
                        Polarity::Positive => write!(f, "pulse + {mv}"),
                    }
                }
                Event::Quiet(ticks) => {
                    let count = ticks.count();
                    write!(f, "quiet {count}")
                }
            },
            Item::Ending(ending) => match ending {
                Ok(()) => write!(f, "end"),
                Err(fault) => {
                    let cause = fault.cause;
                    let place = fault.place;
                    write!(f, "broken {cause} {place}")
                }
            },
        }
    }
}
