//! How a row is read bit by bit.
ghost use Rattle.std.specs.Prelude.{◌≡◌, ◌≤◌, false, length, slice_index_or};
ghost use Rattle.telegram.specs.Bits.{between, odd};
ghost use Rattle.telegram.specs.Rows.{Front, row_bits};

use crate::bits::parity;
use crate::row::Row;

impl Row {
    /// The number of bits.
    pub fn len(&self) -> usize
        ensures value { result ≡ length (row_bits self.now) }
        ensures low { result ≤ 14 }
    {
        self.count
    }

    /// The bits, which are the front of the array.
    #[tactic(auto, using(crate::proofs::Fronts::front))]
    pub fn as_slice(&self) -> &[bool]
        ensures value { result.now ≡ row_bits self.now }
        ensures low { length result.now ≤ 14 }
        ensures front { Front self.now }
    {
        &self.bits[..self.count]
    }

    /// Bit `k`, or 0 where there is none.
    pub fn bit(&self, k: usize) -> bool
        ensures { result ≡ slice_index_or (row_bits self.now) k false }
    {
        self.as_slice().get(k).copied().unwrap_or(false)
    }

    /// Whether the bits between the first and the last have an odd sum.
    pub fn odd_between(&self) -> bool
        ensures { result ≡ odd (between (row_bits self.now)) }
    {
        match self.as_slice() {
            [_, between @ .., _] => parity(between),
            _ => false,
        }
    }
}
