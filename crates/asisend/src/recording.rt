//! The words of a recording.
ghost use Rattle.std.specs.Prelude.{◌≡◌, ◌^◌, ◌<◌, [], ◌∷◌, MatchResult, OnOk};
ghost use Rattle.asisend.specs.Recording.{EventsPushed, Recording, command_events, end_word, row_events, script_events};
ghost use Rattle.asisend.specs.Scripts.{RecordFailed};
ghost use Rattle.line.specs.Words.{word_of};
ghost use Rattle.telegram.specs.Closings.{closing_ticks};

use crate::command::{Command, Telegram};
use crate::failure::Failure;
use line::event::{Event, Height, Polarity};
use line::pour::{Sink, pour};
use std::alloc::{AllocError, Global};
use telegram::answer::coding::Answers;
use telegram::closing::Closing;
use telegram::kind::Kind;
use telegram::request::coding::Requests;
use telegram::sender::Sender;

// The height of all pulses, in millivolts.
const MV: u16 = 4000;

// The first number of words that an end word cannot count.
const TOO_MANY: usize = 0x4000_0000;

// The word of an event: no `From`, since neither type is this crate's.
fn word_of(event: Event) -> u32
    ensures { result ≡ word_of event }
{
    match event {
        Event::Pulse(polarity, height) => {
            let pulse = match polarity {
                Polarity::Negative => 0x4000_0000,
                Polarity::Positive => 0x6000_0000,
            };
            pulse + u32::from(height.mv())
        }
        Event::Quiet(ticks) => ticks.count(),
    }
}

// The words of a recording so far.
#[derive(Drop)]
struct Words {
    list: Vec<u32>,
}

impl Sink for Words {
    type Error = AllocError;

    ghost kept = { λ words. words.list.items };

    ghost kept_as = { λ e. word_of e ∷ [] };

    fn put(&mut self, event: Event) -> Result<(), AllocError> {
        self.list.push(word_of(event))?;
        Ok(())
    }
}

// Adds the words of a telegram of any kind.
fn push_telegram<K: Kind>(
    telegram: K::Record,
    closing: Closing,
    words: &mut Words,
) -> Result<(), AllocError>
    ensures { OnOk result (EventsPushed words.old.list.items (row_events (K.Kind.row_of telegram) (closing_ticks closing)) words.new.list.items) }
{
    let height = Height::try_from(MV).unwrap();
    let mut sender = Sender::<K>::with(telegram, height, closing);
    pour(&mut sender, words)?.unwrap();
    Ok(())
}

// Adds the words of a command.
fn push_command(command: &Command, words: &mut Words) -> Result<(), AllocError>
    ensures { OnOk result (EventsPushed words.old.list.items (command_events command.now) words.new.list.items) }
{
    match command.telegram {
        Telegram::Request(request) => push_telegram::<Requests>(request, command.closing, words),
        Telegram::Answer(answer) => push_telegram::<Answers>(answer, command.closing, words),
    }
}

// The word that ends a recording of `count` words before it.
fn end_word(count: usize) -> u32
    requires { count < 2 ^ 30 }
    ensures { result ≡ end_word count }
{
    0x8000_0000 + count as u32
}

/// The words of all telegrams in order, then the end word. It fails where memory does, or where there are 2^30 words or more.
pub fn record(heap: Global, commands: &[Command]) -> Result<Vec<u32>, Failure>
    ensures { MatchResult result (λ v. Recording (script_events commands.now) v.items) (λ e. RecordFailed (script_events commands.now) e) }
{
    let mut sink = Words {
        list: Vec::new(heap),
    };
    for command in commands {
        push_command(command, &mut sink)?;
    }
    let mut words = sink.list;
    if words.len() >= TOO_MANY {
        return Err(Failure::TooManyWords);
    }
    words.push(end_word(words.len()))?;
    Ok(words)
}
