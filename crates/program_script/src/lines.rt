//! Whole scripts.
ghost use Rattle.std.specs.Prelude.{◌≡◌, ◌+◌, ◌⊎◌, ◌++◌, ◌∷◌, [], ℕ, IfOk, IfErr, OnOk, OnErr};
ghost use Rattle.std.specs.Io.BufRead.{strip_last};
ghost use Rattle.record_values.specs.declared.error.Error.TheVariants.{NoMemory, BadScript};
ghost use Rattle.program_script.specs.Grammar.{lines, IsGood, IsScript, IsFirstFault};
ghost use Rattle.program_script.specs.Reading.{Adds};

use crate::command::Command;
use crate::line::{command_of, is_skipped};
use crate::parts::cut_at;
use records::Error;
use std::alloc::Global;

/// How many lines a script has at most, the ones that are left out included.
pub const LINES_MAX: u64 = 10_000;

/// The text without a line feed at its end.
pub(crate) fn without_last_line_feed(text: &[u8]) -> &[u8]
    ensures { result.now ≡ strip_last 10 text.now }
{
    match text {
        [front @ .., b'\n'] => front,
        _ => text,
    }
}

// Adds the command of the line of this number, if it is not left out.
fn add_line(
    alloc: Global,
    commands: &mut Vec<Command>,
    number: u64,
    line: &[u8],
) -> Result<(), Error>
    ensures ok { OnOk result (Adds line.now commands.old.items commands.new.items) }
    ensures err { IfErr result (λ e. (e ≡ NoMemory) ⊎ ((e ≡ BadScript number) × (IsGood line.now → ⊥))) }
{
    if is_skipped(line) {
        return Ok(());
    }
    match command_of(alloc, line)? {
        Some(command) => {
            commands.push(command)?;
            Ok(())
        }
        None => Err(Error::BadScript { line: number }),
    }
}

/// The commands of a script, in the order of its lines. `BadScript` names the
/// first line, from 1, that is neither left out nor a command, or that is one
/// more than a script may have. `NoMemory` where an allocation is refused.
pub fn read(alloc: Global, text: &[u8]) -> Result<Vec<Command>, Error>
    ensures ok { IfOk result (λ commands. IsScript (lines text.now) commands.items) }
    ensures err { IfErr result (λ e. (e ≡ NoMemory) ⊎ ((index : ℕ) × (e ≡ BadScript (index + 1))
        × IsFirstFault (lines text.now) index)) }
{
    let mut commands = Vec::new(alloc);
    let mut done = 0;
    let mut rest = Some(without_last_line_feed(text));
    while let Some(text) = rest {
        if done >= LINES_MAX {
            return Err(Error::BadScript { line: done + 1 });
        }
        let (line, more) = cut_at(b'\n', text);
        add_line(alloc, &mut commands, done + 1, line)?;
        done += 1;
        rest = more;
    }
    Ok(commands)
}
