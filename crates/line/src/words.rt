//! A recorder's words out of bytes.
ghost use Rattle.std.specs.Prelude.{◌≡◌};
ghost use Rattle.line.specs.Bytes.{Packed, word_at};

// The word in four bytes, the lowest first.
fn word_in(chunk: &[u8; 4]) -> u32
    ensures { result ≡ word_at chunk.now 0 }
{
    u32::from_le_bytes(*chunk)
}

/// Writes the little-endian words of `bytes` over the front of `words`, as many as there is room for, and tells how many.
/// Up to three bytes at the end that make no word are left out, and words that are not written over stay.
// A number, and not the part of `words` that is written: that would go on lending the caller's words.
pub fn from_bytes(bytes: &[u8], words: &mut [u32]) -> usize
    ensures { Packed bytes.now words.old result words.new }
{
    let (chunks, _) = bytes.as_chunks::<4>();
    let count = chunks.len().min(words.len());
    // By number: tried with `iter_mut`, and the proof did not close, as nothing is known of a slice that was written so.
    for (k, chunk) in chunks[..count].iter().enumerate() {
        words[k] = word_in(chunk);
    }
    count
}
