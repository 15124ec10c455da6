//! What one word of a recording says.
ghost use Rattle.std.specs.Prelude.{◌≡◌};
ghost use Rattle.line.specs.Words.{Says, fault};

use crate::bits::low_bits;
use crate::ending::LineFault;
use crate::event::{Event, Height, Polarity, Ticks};
use crate::recording::Flaw;

impl Flaw {
    // The flaw as a line's fault at the word of number `place`.
    // No `From`: a flaw alone has no place.
    pub(crate) fn at(self, place: usize) -> LineFault
        ensures { result ≡ fault self place }
    {
        LineFault {
            cause: self as u32,
            place: place as u64,
        }
    }
}

// What `word` says as the word of number `place`: an event, that the line ends here, or a flaw.
// The kinds are plain numbers: they are two bits of a recorder's word, and are met here alone.
pub(crate) fn read_word(place: usize, word: u32) -> Result<Option<Event>, Flaw>
    ensures { Says place word result }
{
    match word >> 30 {
        0 => {
            let ticks = Ticks::try_from(low_bits(word, 30)).map_err(|_| Flaw::EmptyQuiet)?;
            Ok(Some(Event::Quiet(ticks)))
        }
        1 if low_bits(word >> 13, 16) == 0 => {
            Ok(Some(Event::Pulse(Polarity::in_word(word), Height::in_word(word))))
        }
        1 => Err(Flaw::UsedSpareBits),
        2 if low_bits(word, 30) as usize == place => Ok(None),
        2 => Err(Flaw::WrongCount),
        _ => Err(Flaw::UnknownKind),
    }
}
