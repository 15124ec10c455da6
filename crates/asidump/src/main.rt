//! Lists a recording: its words come from standard input, and each event is printed on a line of its own.
#![tactic(auto)]

use input::reading::fill;

mod listing;
mod text;

fn run(rt: &HostRuntime) -> anyhow::Result<()> {
    // A count beside a fixed buffer: a rule of the project gives the program this buffer.
    let mut bytes = [0u8; 65536];
    let count = fill(&mut rt.stdin(), &mut bytes)?;
    let text = listing::list_recording(rt.alloc(), &bytes[0..count])?;
    rt.print(text)?;
    Ok(())
}

fn main(rt: HostRuntime) -> anyhow::Result<()> {
    run(&rt)
}

#[cfg(test)]
mod tests;
