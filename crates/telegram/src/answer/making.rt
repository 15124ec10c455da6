//! How an answer is made.
ghost use Rattle.telegram.specs.Records.{AnswerMade};

use crate::answer::Answer;
use crate::refusal::Refusal;

/// The answer with this nibble, refused by 9 above 15.
impl TryFrom<u16> for Answer {
    type Error = Refusal;

    ghost try_from_gives = { AnswerMade };

    fn try_from(nibble: u16) -> Result<Answer, Refusal> {
        if nibble < 16 {
            Ok(Answer {
                nibble: nibble as u8,
            })
        } else {
            Err(Refusal::FieldOutOfRange)
        }
    }
}
