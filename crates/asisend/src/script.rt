//! Text as a list of commands.
ghost use Rattle.asisend.specs.Cutting.{LineIn};
ghost use Rattle.asisend.specs.Scripts.{CommandAdded, LineFailed, ScriptFailed, Writes};
ghost use Rattle.std.specs.Prelude.{MatchResult};

use crate::command::Command;
use crate::failure::Failure;
use crate::parsing::parse;
use std::alloc::Global;

// The line in a part of a text: the part without the byte that ends it.
fn line_in(part: &[u8]) -> &[u8]
    ensures { LineIn part.now result.now }
{
    part.strip_suffix(b"\n").unwrap_or(part)
}

// Adds the command that `line` writes, which is the line after those of `commands`.
fn read_line(commands: &mut Vec<Command>, line: &[u8]) -> Result<(), Failure>
    ensures { MatchResult result (λ _. CommandAdded commands.old.items line.now commands.new.items) (λ e. LineFailed commands.old.items line.now e) }
{
    let number = commands.len() + 1;
    let command = parse(line).map_err(|refusal| Failure::BadLine(number, refusal))?;
    commands.push(command)?;
    Ok(())
}

/// The commands that the lines of `text` write, or the first line that writes none.
pub fn read_commands(heap: Global, text: &[u8]) -> Result<Vec<Command>, Failure>
    ensures { MatchResult result (λ v. Writes text.now v.items) (λ e. ScriptFailed text.now e) }
{
    let mut commands = Vec::new(heap);
    for part in text.split_inclusive(|byte| *byte == b'\n') {
        read_line(&mut commands, line_in(part))?;
    }
    Ok(commands)
}
