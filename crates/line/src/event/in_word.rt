//! The parts of a pulse that stand in a recorder's word.
ghost use Rattle.std.specs.Prelude.{◌≡◌};
ghost use Rattle.line.specs.Words.{level, side, sign};

use crate::bits::low_bits;
use crate::event::{Height, Polarity};

impl Height {
    // The height in the low 13 bits of a word.
    // No `From`: it would say that a word is a height, and no word is.
    pub(crate) fn in_word(word: u32) -> Height
        ensures { result.mv ≡ level word }
    {
        Height {
            mv: low_bits(word, 13) as u16,
        }
    }
}

impl Polarity {
    // The polarity in bit 29 of a word.
    // No `From`, as for heights.
    pub(crate) fn in_word(word: u32) -> Polarity
        ensures { sign result ≡ side word }
    {
        Polarity::from(low_bits(word >> 29, 1) == 1)
    }
}
