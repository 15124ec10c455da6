//! How a line ends.

/// What broke a line, and where: a number of 32 bits and one of 64.
// Numbers and no enum: any line may break by a cause of its own, and a rule of the project gives both as numbers.
#[derive(Clone, Copy, PartialEq, Eq, Debug)]
pub struct LineFault {
    pub cause: u32,
    pub place: u64,
}

/// The ending of a line: dry when all was said, or broken by a fault.
pub type Ending = Result<(), LineFault>;
