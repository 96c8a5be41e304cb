//! Lines that are served beside the commands of a script.
ghost use Rattle.std.specs.Prelude.{◌≡◌, None, IfErr, IfOk, IfSome};
ghost use Rattle.std.specs.Io.BufRead.{strip_last};
ghost use Rattle.std.specs.Option.{option_map};
ghost use Rattle.record_values.specs.declared.error.Error.TheVariants.{NoMemory};
ghost use Rattle.program_script.specs.declared.shell_line.ShellLine.{ShellLine as ShellLineValue};
ghost use Rattle.program_script.specs.Grammar.{words};
ghost use Rattle.program_script.specs.Reading.{parts_left};
ghost use Rattle.program_script.specs.ReadingShell.{backup_at, bare_at, delete_key_at, shell_at, update_key_at};
ghost use Rattle.program_script.specs.Shell.{IsShellLineOf};

use crate::byte_text::ByteText;
use crate::line::only_txn;
use crate::lines::without_last_line_feed;
use crate::parts::{cut_at, four_parts, only_part, two_parts};
use crate::scan::{Scan, keys_of};
use crate::word::{bytes_of, name_of, txn_of};
use records::{Error, Txn};
use std::alloc::{AllocError, Global};

/// A line that is served beside the commands of a script. Lines that name a row by its key ask for all steps of the
/// change.
#[derive(Drop)]
pub enum ShellLine {
    /// Asks for a range of the index: `scan`, and what [`Scan`] says.
    Scan(Scan),
    /// Deletes the one row with a key: `delete-key <t> <key>`.
    DeleteKey {
        txn: Txn,
        key: ByteText,
    },
    /// Puts another row in the place of the one with a key: `update-key <t> <old key> <key> <body>`.
    UpdateKey {
        txn: Txn,
        old: ByteText,
        key: ByteText,
        body: ByteText,
    },
    /// Commits a transaction, and flushes: `commit! <t>`.
    CommitNow {
        txn: Txn,
    },
    /// Flushes, and copies the store to the new file of this name: `backup <file>`.
    Backup {
        file: ByteText,
    },
    /// Asks what there is to be asked: `help`.
    Help,
    /// Ends the input: `quit`.
    Quit,
}

#[tactic(auto, unfolding(crate::specs::ReadingShell::delete_key_at))]
fn delete_key_of(alloc: Global, rest: Option<&[u8]>) -> Result<Option<ShellLine>, AllocError>
    ensures { IfOk result (λ r. r ≡ delete_key_at (parts_left 32 (option_map (λ r. r.now) rest.entry))) }
{
    let Some((txn, key)) = two_parts(b' ', rest) else {
        return Ok(None);
    };
    let Some(txn) = txn_of(txn) else {
        return Ok(None);
    };
    let Some(key) = bytes_of(alloc, key)? else {
        return Ok(None);
    };
    Ok(Some(ShellLine::DeleteKey { txn, key }))
}

#[tactic(auto, unfolding(crate::specs::ReadingShell::update_key_at))]
fn update_key_of(alloc: Global, rest: Option<&[u8]>) -> Result<Option<ShellLine>, AllocError>
    ensures { IfOk result (λ r. r ≡ update_key_at (parts_left 32 (option_map (λ r. r.now) rest.entry))) }
{
    let Some((txn, old, key, body)) = four_parts(b' ', rest) else {
        return Ok(None);
    };
    let Some(txn) = txn_of(txn) else {
        return Ok(None);
    };
    let Some(old) = bytes_of(alloc, old)? else {
        return Ok(None);
    };
    let Some(key) = bytes_of(alloc, key)? else {
        return Ok(None);
    };
    let Some(body) = bytes_of(alloc, body)? else {
        return Ok(None);
    };
    Ok(Some(ShellLine::UpdateKey {
        txn,
        old,
        key,
        body,
    }))
}

#[tactic(auto, unfolding(crate::specs::ReadingShell::backup_at))]
fn backup_of(alloc: Global, rest: Option<&[u8]>) -> Result<Option<ShellLine>, AllocError>
    ensures { IfOk result (λ r. r ≡ backup_at (parts_left 32 (option_map (λ r. r.now) rest.entry))) }
{
    let Some(word) = only_part(b' ', rest) else {
        return Ok(None);
    };
    let file = name_of(alloc, word)?;
    Ok(file.map(|file| ShellLine::Backup { file }))
}

// The line, where no word is left.
fn bare(rest: Option<&[u8]>, line: ShellLine) -> Option<ShellLine>
    ensures { result ≡ bare_at line (parts_left 32 (option_map (λ r. r.now) rest.entry)) }
{
    match rest {
        None => Some(line),
        Some(_) => None,
    }
}

// What a line spells beside the commands, where it spells something.
#[tactic(auto, unfolding(crate::specs::ReadingShell::shell_at))]
fn shell_line_of(alloc: Global, line: &[u8]) -> Result<Option<ShellLine>, AllocError>
    ensures { IfOk result (λ r. r ≡ shell_at (words line.now)) }
{
    let (verb, rest) = cut_at(b' ', line);
    if verb == b"scan".as_slice() {
        Ok(keys_of(alloc, rest)?.map(|scan| ShellLine::Scan(scan)))
    } else if verb == b"delete-key".as_slice() {
        delete_key_of(alloc, rest)
    } else if verb == b"update-key".as_slice() {
        update_key_of(alloc, rest)
    } else if verb == b"commit!".as_slice() {
        Ok(only_txn(rest).map(|txn| ShellLine::CommitNow { txn }))
    } else if verb == b"backup".as_slice() {
        backup_of(alloc, rest)
    } else if verb == b"help".as_slice() {
        Ok(bare(rest, ShellLine::Help))
    } else if verb == b"quit".as_slice() {
        Ok(bare(rest, ShellLine::Quit))
    } else {
        Ok(None)
    }
}

/// What a text of one line, which a line feed may end, spells beside the commands; none where it spells none of it.
/// `NoMemory` where an allocation is refused.
pub fn read_shell_line(alloc: Global, text: &[u8]) -> Result<Option<ShellLine>, Error>
    ensures spelled { IfOk result (λ found. IfSome found (IsShellLineOf (strip_last 10 text.now))) }
    ensures none { IfOk result (λ found.
        found ≡ None → (line : ShellLineValue) → ¬ IsShellLineOf (strip_last 10 text.now) line) }
    ensures no_memory { IfErr result (λ e. e ≡ NoMemory) }
{
    let found = shell_line_of(alloc, without_last_line_feed(text))?;
    Ok(found)
}
