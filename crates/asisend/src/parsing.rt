//! A line of text as a command.
ghost use Rattle.std.specs.Prelude.{◌≡◌, ℕ, List, ◌++◌, MatchOption, MatchResult, ◌≢◌};
ghost use Rattle.asisend.specs.Commands.{AnswerRead, Fielded, LineRead, RequestRead, Unfielded};
ghost use Rattle.telegram.specs.Refusals.{number};

use crate::command::{Command, Telegram};
use crate::cutting::cut;
use crate::number;
use telegram::answer::Answer;
use telegram::refusal::Refusal;
use telegram::request::Request;

// A number, and what stands after the space that follows it.
#[derive(Clone, Copy)]
struct Field<'a> {
    value: u16,
    rest: &'a [u8],
}

// The number at the front of `bytes`, up to the first space.
fn first_field(bytes: &[u8]) -> Result<Field<'_>, Refusal>
    ensures { MatchResult result (λ f. Fielded bytes.now f.value f.rest.now) (λ e. Unfielded bytes.now × (number e ≡ 9)) }
{
    let parts = cut(bytes, b' ').ok_or(Refusal::FieldOutOfRange)?;
    Ok(Field {
        value: number::read(parts.front)?,
        rest: parts.back,
    })
}

// The request whose fields `bytes` give, with its closing quiet.
#[tactic(auto, using(crate::proofs::Shapes::no_control, crate::proofs::Shapes::no_address, crate::proofs::Shapes::no_closing, crate::proofs::Shapes::no_request, crate::proofs::Shapes::request_read))]
fn request(bytes: &[u8]) -> Result<Command, Refusal>
    ensures { RequestRead bytes.now result }
{
    let control = first_field(bytes)?;
    let address = first_field(control.rest)?;
    let information = first_field(address.rest)?;
    let closing = number::read(information.rest)?;
    let request = Request::new(control.value, address.value, information.value)?;
    Command::new(Telegram::Request(request), closing)
}

// The answer whose fields `bytes` give, with its closing quiet.
#[tactic(auto, using(crate::proofs::Shapes::no_nibble, crate::proofs::Shapes::no_quiet, crate::proofs::Shapes::no_answer, crate::proofs::Shapes::answer_read))]
fn answer(bytes: &[u8]) -> Result<Command, Refusal>
    ensures { AnswerRead bytes.now result }
{
    let nibble = first_field(bytes)?;
    let closing = number::read(nibble.rest)?;
    let answer = Answer::try_from(nibble.value)?;
    Command::new(Telegram::Answer(answer), closing)
}

// What stands after `name` at the front of `line`.
fn after<'a>(line: &'a [u8], name: &[u8]) -> Option<&'a [u8]>
    ensures { MatchOption result ((rest : List ℕ) → line.now ≢ name.now ++ rest) (λ x. line.now ≡ name.now ++ x.now) }
{
    line.strip_prefix(name)
}

/// The command that `line` writes. Refused by 9 if the line has neither form or a field is out of its range, else by 10 if
/// the closing quiet is.
// A function and no `TryFrom`: bytes are no command by themselves, only as a line of this text.
#[tactic(auto, using(crate::proofs::Shapes::request_line, crate::proofs::Shapes::answer_line))]
pub fn parse(line: &[u8]) -> Result<Command, Refusal>
    ensures { LineRead line.now result }
{
    if let Some(fields) = after(line, b"request ") {
        request(fields)
    } else if let Some(fields) = after(line, b"answer ") {
        answer(fields)
    } else {
        Err(Refusal::FieldOutOfRange)
    }
}
