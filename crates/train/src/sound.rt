//! What is kept of a train while it is sound.
ghost use Rattle.std.specs.Prelude.{◌≡◌, ◌+◌, ◌/◌, ◌≤◌, length};
ghost use Rattle.telegram.specs.Rows.{row_bits};

use line::event::Polarity;
use telegram::row::Row;

mod checks;
pub mod hearing;
pub mod reading;

/// What is kept of a train without fault so far: how many pulses it has, the ticks, slot and polarity of the last one, and
/// its bits.
// Ticks and polarity apart, and no `TimedPulse`: contracts and checks speak of each by itself.
#[derive(Clone, Copy)]
pub struct Sound {
    count: u16,
    t: u16,
    slot: u16,
    polarity: Polarity,
    row: Row,
    ghost low: { slot ≤ 26 },
    ghost few: { count ≤ slot + 1 },
    ghost filled: { length (row_bits row) ≡ slot / 2 + 1 },
}
