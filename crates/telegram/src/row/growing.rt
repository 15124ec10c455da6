//! How a row is begun and grows.
ghost use Rattle.std.specs.Prelude.{◌≡◌, []};
ghost use Rattle.telegram.specs.Rows.{Pushed, row_bits};

use crate::row::Row;

/// A row has no room for one bit more.
#[derive(Clone, Copy, PartialEq, Eq, Debug)]
pub struct Full;

impl Row {
    /// A row with no bits yet.
    pub fn new() -> Row
        ensures { row_bits result ≡ [] }
    {
        Row {
            bits: [false; 14],
            count: 0,
        }
    }

    /// Adds `bit` at the end; a row of 14 bits is full and stays as it is.
    pub fn push(&mut self, bit: bool) -> Result<(), Full>
        ensures { Pushed (row_bits self.old) bit result (row_bits self.new) }
    {
        if self.count == 14 {
            return Err(Full);
        }
        self.bits[self.count] = bit;
        self.count += 1;
        Ok(())
    }
}
