//! A recorder's words as bytes.
ghost use Rattle.std.specs.Prelude.{IfOk};
ghost use Rattle.asisend.specs.Bytes.{Written};

use std::alloc::{AllocError, Global};

/// The bytes of `words`, four to a word, the lowest first.
pub fn from_words(heap: Global, words: &[u32]) -> Result<Vec<u8>, AllocError>
    ensures { IfOk result (λ v. Written words.now v.items) }
{
    let mut bytes = Vec::new(heap);
    for word in words {
        bytes.extend_from_slice(&word.to_le_bytes())?;
    }
    Ok(bytes)
}
