//! Bytes cut in two.
ghost use Rattle.asisend.specs.Cutting.{Cuts, Lacks};
ghost use Rattle.std.specs.Option.{MatchOption};

/// A list of bytes cut in two.
#[derive(Clone, Copy)]
pub struct Parts<'a> {
    pub front: &'a [u8],
    pub back: &'a [u8],
}

/// What stands before the first `mark` in `bytes`, and what stands after it.
pub fn cut(bytes: &[u8], mark: u8) -> Option<Parts<'_>>
    ensures { MatchOption result (Lacks mark bytes.now) (λ p. Cuts mark bytes.now p.front.now p.back.now) }
{
    let i = bytes.iter().position(|byte| *byte == mark)?;
    Some(Parts {
        front: &bytes[0..i],
        back: &bytes[i + 1..],
    })
}
