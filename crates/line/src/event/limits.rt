//! How a height and a number of ticks are made and read.
ghost use Rattle.std.specs.Prelude.{◌≡◌};
ghost use Rattle.line.specs.Events.{HeightMade, TicksMade};

use crate::event::{Height, Ticks};
use crate::refusal::Refusal;

// The greatest height, in millivolts.
const HIGHEST: u16 = 8191;

// The most ticks of one quiet.
const LONGEST: u32 = 1_073_741_823;

/// The height of so many millivolts, refused by 1 above 8,191.
impl TryFrom<u16> for Height {
    type Error = Refusal;

    ghost try_from_gives = { HeightMade };

    fn try_from(mv: u16) -> Result<Height, Refusal> {
        if mv > HIGHEST {
            return Err(Refusal::HeightOutOfRange);
        }
        Ok(Height { mv })
    }
}

impl Height {
    /// The height in millivolts.
    pub fn mv(self) -> u16
        ensures { result ≡ self.mv }
    {
        self.mv
    }
}

/// So many ticks, refused by 2 outside 1 to 1,073,741,823.
impl TryFrom<u32> for Ticks {
    type Error = Refusal;

    ghost try_from_gives = { TicksMade };

    fn try_from(count: u32) -> Result<Ticks, Refusal> {
        if !(1..=LONGEST).contains(&count) {
            return Err(Refusal::TicksOutOfRange);
        }
        Ok(Ticks { count })
    }
}

impl Ticks {
    /// The number of ticks.
    pub fn count(self) -> u32
        ensures { result ≡ self.count }
    {
        self.count
    }
}
