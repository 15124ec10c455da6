//! Single bits and their sums.
ghost use Rattle.std.specs.Prelude.{◌≡◌, ◌<◌};
ghost use Rattle.telegram.specs.Bits.{odd};
ghost use Rattle.telegram.specs.Digits.{digit};

// Bit `k` of `n`.
pub(crate) fn bit(n: u8, k: u8) -> bool
    requires { k < 8 }
    ensures { result ≡ digit n k }
{
    (n >> k) % 2 == 1
}

// Whether the sum of the bits is odd.
pub(crate) fn parity(bits: &[bool]) -> bool
    ensures { result ≡ odd bits.now }
{
    let mut odd = false;
    for bit in bits {
        odd ^= *bit;
    }
    odd
}
