//! The listing of a whole line.
ghost use Rattle.std.specs.Prelude.{◌≡◌, IfOk, string_bytes};
ghost use Rattle.asidump.specs.Listing.{dump, event_line, listing, recorded};

use crate::text::Item;
use line::event::Event;
use line::line::Line;
use line::pour::{Sink, pour};
use line::recording::Recording;
use line::words;
use std::alloc::{AllocError, Global};
use std::fmt;

// As many words as 65,536 bytes hold. A fixed room with a count: `from_bytes` writes into a room of its caller's.
const ROOM: usize = 16384;

// The lines of a listing so far.
#[derive(Drop)]
struct Lines {
    text: String,
}

impl Sink for Lines {
    type Error = AllocError;

    ghost kept = { λ lines. string_bytes lines.text };

    ghost kept_as = { event_line };

    fn put(&mut self, event: Event) -> Result<(), AllocError> {
        writeln!(self.text, "{}", Item::Event(event))
    }
}

// The listing of a whole line.
fn list_line<L: Line>(heap: Global, line: &mut L) -> Result<String, fmt::Error>
    ensures { IfOk result (λ t. string_bytes t ≡ listing (L.Line.waits line.old) (L.Line.ending line.old)) }
{
    let mut lines = Lines {
        text: String::new(heap),
    };
    let ending = pour(line, &mut lines)?;
    writeln!(lines.text, "{}", Item::Ending(ending))?;
    Ok(lines.text)
}

// The listing of the recording in `words`.
pub(crate) fn list_words(heap: Global, words: &[u32]) -> Result<String, fmt::Error>
    ensures { IfOk result (λ t. string_bytes t ≡ recorded words.now) }
{
    list_line(heap, &mut Recording::new(words))
}

/// The listing of the recording in `bytes`: a line of text for each event, then one for the ending. At most 16,384 words
/// are read. It fails only where memory does.
#[tactic(auto, using(crate::proofs::Rooms::all_were_read))]
pub fn list_recording(heap: Global, bytes: &[u8]) -> Result<String, fmt::Error>
    ensures { IfOk result (λ t. string_bytes t ≡ dump bytes.now) }
{
    let mut words = [0u32; ROOM];
    let count = words::from_bytes(bytes, &mut words);
    list_words(heap, &words[0..count])
}
