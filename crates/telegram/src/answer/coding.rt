//! The row of an answer, and the answer in a row.
ghost use Rattle.telegram.specs.Records.{answer_record, answer_row};
ghost use Rattle.telegram.specs.Frames.{answer_back, answer_forth};
ghost use Rattle.std.proofs.Common.{rules};

use crate::answer::Answer;
use crate::bits::bit;
use crate::kind::Kind;
use crate::row::Row;

/// The kind of answers: 7 bits.
#[derive(Clone, Copy)]
pub struct Answers;

impl Kind for Answers {
    type Record = Answer;

    const BITS: usize = 7;

    ghost BITS = { 7 };

    ghost row_of = { answer_row };

    ghost record_of = { answer_record };

    ghost least = { Prim.search rules };

    ghost most = { Prim.search rules };

    ghost long = { Prim.search rules };

    ghost ends = { Prim.search rules };

    ghost even = { Prim.search rules };

    ghost back = { answer_back };

    ghost forth = { answer_forth };

    fn row(telegram: &Answer) -> Row {
        let n = telegram.nibble;
        let f = [bit(n, 3), bit(n, 2), bit(n, 1), bit(n, 0)];
        Row::framed(&f)
    }

    fn record(row: &Row) -> Answer {
        Answer {
            nibble: row.field(1, 4),
        }
    }
}
