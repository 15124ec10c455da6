//! What a line of text asks for: a telegram and the quiet after it.
use telegram::answer::Answer;
use telegram::closing::Closing;
use telegram::request::Request;

pub mod making;

/// A telegram of either kind.
#[derive(Clone, Copy)]
pub enum Telegram {
    Request(Request),
    Answer(Answer),
}

/// A telegram and its closing quiet.
#[derive(Clone, Copy)]
pub struct Command {
    pub telegram: Telegram,
    pub closing: Closing,
}
