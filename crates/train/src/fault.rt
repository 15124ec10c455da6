//! What can be wrong with a train.
ghost use Rattle.std.specs.Prelude.{◌≡◌};
ghost use Rattle.train.specs.Faults.{fault, number};

/// Why a train is at fault.
#[derive(Clone, Copy, PartialEq, Eq, Debug)]
pub enum Cause {
    Start = 1,
    Timing = 2,
    Alternation = 3,
    NoInformation = 4,
    EndBit = 5,
    Parity = 6,
    Length = 7,
}

/// A fault as plain numbers: the number of its cause, the number of the pulse in its train, from 1, and that pulse's ticks
/// after the first.
// A number and no enum: reports hold plain numbers, by a rule of the project.
#[derive(Clone, Copy, PartialEq, Eq, Debug)]
pub struct Fault {
    pub cause: u16,
    pub pulse: u16,
    pub t: u16,
}

impl Cause {
    /// The number of the cause: 1 start, 2 timing, 3 alternation, 4 no information, 5 end bit, 6 parity, 7 length.
    // A name and no `From`, which would not say which number.
    pub fn number(self) -> u16
        ensures { result ≡ number self }
    {
        self as u16
    }

    /// The fault of this cause at the pulse of number `pulse`, `t` ticks after the first.
    // No `From`: a cause alone has no pulse.
    pub fn at(self, pulse: u16, t: u16) -> Fault
        ensures { result ≡ fault self pulse t }
    {
        Fault {
            cause: self.number(),
            pulse,
            t,
        }
    }
}
