//! How a recording is read.
ghost use Rattle.std.specs.Prelude.{◌≡◌};
ghost use Rattle.line.specs.Decoding.{Begins, from};
ghost use Rattle.line.specs.Recorded.{Records};

use crate::ending::LineFault;
use crate::event::Event;
use crate::line::Line;
use crate::recording::format::read_word;
use crate::recording::{Flaw, Recording};

impl<'a> Recording<'a> {
    /// The recording in `words`, from its first word on.
    pub fn new(words: &'a [u32]) -> Recording<'a>
        ensures words { result.words.now ≡ words.now }
        ensures at { result.at ≡ 0 }
        ensures records { Records words.now (from 0 words.now) }
    {
        Recording { words, at: 0 }
    }

    // What the next word says, or that there is none.
    fn next_word(&self) -> Result<Option<Event>, Flaw>
        ensures { Begins self.now.at self.now.words.now result }
    {
        let word = self.words.get(self.at).ok_or(Flaw::NoEnd)?;
        read_word(self.at, *word)
    }
}

impl<'a> Line for Recording<'a> {
    ghost waits = { λ s. (from s.at s.words.now).events };

    ghost ending = { λ s. (from s.at s.words.now).ending };

    fn take(&mut self) -> Result<Option<Event>, LineFault> {
        let said = self.next_word().map_err(|flaw| flaw.at(self.at))?;
        if said.is_some() {
            self.at += 1;
        }
        Ok(said)
    }
}
