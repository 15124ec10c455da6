//! Text to bytes: all that the program does between its input and its output.
ghost use Rattle.asisend.specs.Sent.{SendFailed, Sent};
ghost use Rattle.std.specs.Prelude.{MatchResult};

use crate::failure::Failure;
use crate::{bytes, recording, script};
use std::alloc::Global;

/// The most bytes of text that are taken.
pub const LONGEST: usize = 65536;

/// The bytes of the recording that `text` asks for.
pub fn send(heap: Global, text: &[u8]) -> Result<Vec<u8>, Failure>
    ensures { MatchResult result (λ v. Sent text.now v.items) (λ e. SendFailed text.now e) }
{
    if text.len() > LONGEST {
        return Err(Failure::TooLong);
    }
    let commands = script::read_commands(heap, text)?;
    let words = recording::record(heap, commands.as_slice())?;
    Ok(bytes::from_words(heap, words.as_slice())?)
}
