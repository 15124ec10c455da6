//! Bits of a word.
ghost use Rattle.std.specs.Prelude.{◌≡◌, ◌%◌, ◌^◌, ◌<◌};

// The low `count` bits of `word`.
pub(crate) fn low_bits(word: u32, count: u32) -> u32
    requires { count < 32 }
    ensures { result ≡ word % 2 ^ count }
{
    word & ((1 << count) - 1)
}
