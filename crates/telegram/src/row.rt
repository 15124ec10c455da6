//! Rows of bits.
ghost use Rattle.std.specs.Prelude.{◌≡◌, ◌≤◌, length};

mod fields;
mod framing;
pub mod growing;
pub mod pulses;
pub mod reading;

/// Up to 14 bits in the order of sending. A record's row has just as many as its kind, by a law of the kind.
// An array and a count: the library's vector of fixed room cannot be copied, and whoever has a row may copy it.
// Ghost fields and no `Model`: what holds a value with a model is not copied when it is passed on and used again.
#[derive(Clone, Copy)]
pub struct Row {
    bits: [bool; 14],
    count: usize,
    ghost room: { count ≤ 14 },
    ghost wide: { length bits ≡ 14 },
}
