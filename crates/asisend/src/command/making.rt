//! How a command is made.
ghost use Rattle.asisend.specs.Commands.{Made};

use crate::command::{Command, Telegram};
use telegram::closing::Closing;
use telegram::refusal::Refusal;

impl Command {
    /// The command to send `telegram` with a closing quiet of `closing` ticks, refused by 10 outside 72 to 4,000.
    pub fn new(telegram: Telegram, closing: u16) -> Result<Command, Refusal>
        ensures { Made telegram closing result }
    {
        let closing = Closing::try_from(u32::from(closing))?;
        Ok(Command { telegram, closing })
    }
}
