//! The numbers in a row.
ghost use Rattle.std.specs.Prelude.{◌≡◌, ◌+◌, ◌^◌, ◌<◌, ◌≤◌};
ghost use Rattle.telegram.specs.Digits.{part, value};
ghost use Rattle.telegram.specs.Rows.{row_bits};

use crate::row::Row;

impl Row {
    // The number that `width` bits from bit `from` on write, each that the row lacks being 0.
    pub(crate) fn field(&self, from: usize, width: usize) -> u8
        requires { (from ≤ 14) × (width ≤ 8) }
        ensures value { result ≡ value (part from width (row_bits self.now)) }
        ensures low { result < 2 ^ width }
    {
        let mut number = 0u16;
        // By number: a bit that the row lacks counts too, and stands in no slice.
        for k in 0..width {
            number = 2 * number + u16::from(self.bit(from + k));
        }
        number as u8
    }
}
