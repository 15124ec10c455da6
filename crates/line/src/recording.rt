//! A recording: a line read from the caller's words.
ghost use Rattle.std.specs.Prelude.{◌≤◌, length};

mod format;
mod reads;

/// A recorder's words, lent, and the number of the next one to read. No word is copied.
// The number stands beside the words, as a rule of the project has it: a fault names its place by it.
#[derive(Drop)]
pub struct Recording<'a> {
    words: &'a [u32],
    at: usize,
    ghost within: { at ≤ length words.now },
}

/// What is wrong with a word, or with the words as a whole.
#[derive(Clone, Copy)]
pub(crate) enum Flaw {
    UnknownKind = 4,
    EmptyQuiet = 5,
    UsedSpareBits = 6,
    NoEnd = 7,
    WrongCount = 8,
}
