//! Plain decimal numbers.
ghost use Rattle.asisend.specs.Numbers.{Digited, Numbered};

use telegram::refusal::Refusal;

// The number that every greater one is read as.
const GREATEST: u32 = 65535;

// The number that the digits in `bytes` write, or 65,535 if it is greater; none if there is a byte that is no digit.
// Not the library's `parse`: it would fail where a number is too great.
#[tactic(auto, using(crate::proofs::Plainly::digit_more, crate::proofs::Plainly::not_digits))]
fn value(bytes: &[u8]) -> Option<u16>
    ensures { Digited bytes.now result }
{
    let mut number = 0u32;
    for byte in bytes {
        let digit = char::from(*byte).to_digit(10)?;
        number = (10 * number + digit).min(GREATEST);
    }
    Some(number as u16)
}

/// The number that `bytes` write in plain decimals, or 65,535 if it is greater. Refused by 9 if there are none,
/// if they are not just digits, or if they begin with a 0 that is not all.
// Not the library's `parse`, which also takes a sign and zeros in front.
pub fn read(bytes: &[u8]) -> Result<u16, Refusal>
    ensures { Numbered bytes.now result }
{
    if matches!(bytes, [] | [b'0', _, ..]) {
        return Err(Refusal::FieldOutOfRange);
    }
    value(bytes).ok_or(Refusal::FieldOutOfRange)
}
