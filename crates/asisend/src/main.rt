//! Makes a recording: telegrams come from standard input as lines of text, and the words of their events go to standard
//! output.
#![tactic(auto)]

use input::reading::fill;
use std::io::Write;
use std::process::ExitCode;

mod bytes;
mod command;
mod cutting;
mod failure;
mod number;
mod parsing;
mod recording;
mod script;
mod sending;

// Room for the longest text and one byte more, by which a longer one shows.
// A count beside a fixed buffer: a rule of the project gives a program such a buffer.
const ROOM: usize = sending::LONGEST + 1;

fn run(rt: &HostRuntime) -> anyhow::Result<()> {
    let mut text = [0u8; ROOM];
    prove!(text.len() > sending::LONGEST);
    let count = fill(&mut rt.stdin(), &mut text)?;
    let bytes = sending::send(rt.alloc(), &text[0..count])?;
    rt.stdout().write_all(bytes.as_slice())?;
    Ok(())
}

// An error is told by its text alone, and ends the process with status 1.
fn main(rt: HostRuntime) -> ExitCode {
    match run(&rt) {
        Ok(()) => ExitCode::SUCCESS,
        Err(error) => {
            let _ = eprintln!(rt; "{error}");
            ExitCode::FAILURE
        }
    }
}

#[cfg(test)]
mod tests;
