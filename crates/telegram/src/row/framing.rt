//! Rows of fields.
ghost use Rattle.std.specs.Prelude.{◌≡◌, ◌≤◌, length};
ghost use Rattle.telegram.specs.Digits.{framed};
ghost use Rattle.telegram.specs.Rows.{row_bits};

use crate::bits::parity;
use crate::row::Row;

impl Row {
    // The row of these bits of fields: a start 0, the bits, the bit that makes their sum even, and an end 1.
    pub(crate) fn framed(fields: &[bool]) -> Row
        requires { length fields.now ≤ 11 }
        ensures { row_bits result ≡ framed fields.now }
    {
        let mut row = Row::new();
        row.push(false).unwrap();
        for bit in fields {
            row.push(*bit).unwrap();
        }
        row.push(parity(fields)).unwrap();
        row.push(true).unwrap();
        row
    }
}
