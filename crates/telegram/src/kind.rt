//! Kinds of telegram, by the laws that they keep.
ghost use Rattle.std.specs.Prelude.{◌≡◌, ℕ, ◌≤◌, Bool, List, length};
ghost use Rattle.telegram.specs.Bits.{Ends, Even, Proper};
ghost use Rattle.telegram.specs.Rows.{row_bits};

use crate::row::Row;

/// A kind of telegram: how many bits it has, what its record is, and how the one becomes the other.
pub trait Kind {
    /// What a telegram of this kind says.
    type Record: Copy;

    /// The number of bits.
    const BITS: usize;

    /// The number of bits, as contracts name it.
    ghost BITS: { ℕ };

    /// The row of a record.
    ghost row_of: { Self.Record → List Bool };

    /// The record of a row; of a row that is no record's, some record.
    ghost record_of: { List Bool → Self.Record };

    /// The row of a record.
    fn row(telegram: &Self::Record) -> Row
        ensures { row_bits result ≡ row_of telegram.now };

    /// The record of a row; bits that the row lacks count as 0.
    fn record(row: &Row) -> Self::Record
        ensures { result ≡ record_of (row_bits row.now) };

    /// There are at least 4 bits,
    ghost least: { 4 ≤ BITS };

    /// and at most 14,
    ghost most: { BITS ≤ 14 };

    /// and the row of a record has just that many.
    ghost long: { (r : Self.Record) → length (row_of r) ≡ BITS };

    /// The first law: the row of a record begins with 0 and ends with 1.
    ghost ends: { (r : Self.Record) → Ends (row_of r) };

    /// The second law: the bits between those two have an even sum.
    ghost even: { (r : Self.Record) → Even (row_of r) };

    /// The third law: the record of a record's row is that record.
    ghost back: { (r : Self.Record) → record_of (row_of r) ≡ r };

    /// The fourth law: a row of the right length that keeps the first two is the row of its record.
    ghost forth: { (w : List Bool) → Proper BITS w → row_of (record_of w) ≡ w };
}
