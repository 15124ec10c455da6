//! Why no recording is made.
ghost use Rattle.std.specs.Prelude.{◌≡◌, Some};
ghost use Rattle.asisend.specs.declared.failure.Failure.TheVariants.{Memory};
ghost use Rattle.asisend.specs.Scripts.{failure_text};

use std::alloc::{AllocError, AllocFailed};
use std::error::Error;
use std::fmt;
use telegram::refusal::Refusal;

/// What the program fails by.
#[derive(Debug, Drop)]
pub enum Failure {
    /// Memory is short.
    Memory,
    /// The input has more than 65,536 bytes.
    TooLong,
    /// There are more words than an end word can count.
    TooManyWords,
    /// The line of this number, from 1 on, is bad.
    BadLine(usize, Refusal),
}

// Two conversions: the library has two errors for want of memory, and they convert to no common one here.
impl From<AllocError> for Failure {
    ghost from_gives = { λ _ r. r ≡ Memory };

    fn from(_error: AllocError) -> Failure {
        Failure::Memory
    }
}

impl<T: Drop> From<AllocFailed<T>> for Failure {
    ghost from_gives = { λ _ r. r ≡ Memory };

    fn from(_error: AllocFailed<T>) -> Failure {
        Failure::Memory
    }
}

impl fmt::Display for Failure {
    ghost output = { λ e. Some (failure_text e) };

    fn fmt<W: fmt::Write>(&self, f: &mut fmt::Formatter<W>) -> fmt::Result {
        match self {
            Failure::Memory => write!(f, "out of memory"),
            Failure::TooLong => write!(f, "input longer than 65536 bytes"),
            Failure::TooManyWords => write!(f, "too many words for one recording"),
            Failure::BadLine(line, refusal) => {
                let number = refusal.number();
                write!(f, "line {line}: refused by {number}")
            }
        }
    }
}

impl Error for Failure {}
