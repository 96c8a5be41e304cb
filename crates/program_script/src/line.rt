//! Lines.
ghost use Rattle.std.specs.Prelude.{◌≡◌, IfOk};
ghost use Rattle.std.specs.Option.{option_map};
ghost use Rattle.program_script.specs.Grammar.{words, is_left_out};
ghost use Rattle.program_script.specs.Reading.{parts_left, alone_at, insert_at, delete_at, update_at, only_txn_at};
ghost use Rattle.program_script.specs.Reading.{steps_at};
ghost use Rattle.program_script.specs.Reading.{crash_at, get_at, find_at, store_command_at, command_at};

use crate::command::Command;
use crate::fate::Fate;
use crate::parts::{cut_at, four_parts, only_part, three_parts, two_parts};
use crate::word::{bytes_of, count_of, rid_of, txn_of};
use records::Txn;
use std::alloc::{AllocError, Global};

/// Whether a line is left out: it is empty, or a comment.
pub fn is_skipped(line: &[u8]) -> bool
    ensures { result ≡ is_left_out line.now }
{
    match line {
        [] => true,
        [first, ..] => *first == b'#',
    }
}

fn alone(rest: Option<&[u8]>, command: Command) -> Option<Command>
    ensures { result ≡ alone_at command (parts_left 32 (option_map (λ r. r.now) rest.entry)) }
{
    match rest {
        None => Some(command),
        Some(_) => None,
    }
}

#[tactic(auto, unfolding(crate::specs::Reading::insert_at))]
fn insert_of(alloc: Global, rest: Option<&[u8]>) -> Result<Option<Command>, AllocError>
    ensures { IfOk result (λ r. r ≡ insert_at (parts_left 32 (option_map (λ r. r.now) rest.entry))) }
{
    let Some((txn, key, body)) = three_parts(b' ', rest) else {
        return Ok(None);
    };
    let Some(txn) = txn_of(txn) else {
        return Ok(None);
    };
    let Some(key) = bytes_of(alloc, key)? else {
        return Ok(None);
    };
    let Some(body) = bytes_of(alloc, body)? else {
        return Ok(None);
    };
    Ok(Some(Command::Insert { txn, key, body }))
}

#[tactic(auto, unfolding(crate::specs::Reading::delete_at))]
fn delete_of(rest: Option<&[u8]>) -> Option<Command>
    ensures { result ≡ delete_at (parts_left 32 (option_map (λ r. r.now) rest.entry)) }
{
    let (txn, rid) = two_parts(b' ', rest)?;
    let txn = txn_of(txn)?;
    let rid = rid_of(rid)?;
    Some(Command::Delete { txn, rid })
}

#[tactic(auto, unfolding(crate::specs::Reading::update_at))]
fn update_of(alloc: Global, rest: Option<&[u8]>) -> Result<Option<Command>, AllocError>
    ensures { IfOk result (λ r. r ≡ update_at (parts_left 32 (option_map (λ r. r.now) rest.entry))) }
{
    let Some((txn, rid, key, body)) = four_parts(b' ', rest) else {
        return Ok(None);
    };
    let Some(txn) = txn_of(txn) else {
        return Ok(None);
    };
    let Some(rid) = rid_of(rid) else {
        return Ok(None);
    };
    let Some(key) = bytes_of(alloc, key)? else {
        return Ok(None);
    };
    let Some(body) = bytes_of(alloc, body)? else {
        return Ok(None);
    };
    Ok(Some(Command::Update {
        txn,
        rid,
        key,
        body,
    }))
}

/// The transaction that is the only word left.
#[tactic(auto, unfolding(crate::specs::Reading::only_txn_at))]
pub fn only_txn(rest: Option<&[u8]>) -> Option<Txn>
    ensures { result ≡ only_txn_at (parts_left 32 (option_map (λ r. r.now) rest.entry)) }
{
    txn_of(only_part(b' ', rest)?)
}

// How many steps are asked for: one where nothing is left.
#[tactic(auto, unfolding(crate::specs::Reading::steps_at))]
fn steps_of(rest: Option<&[u8]>) -> Option<u32>
    ensures { result ≡ steps_at (parts_left 32 (option_map (λ r. r.now) rest.entry)) }
{
    let Some(rest) = rest else {
        return Some(1);
    };
    let (word, more) = cut_at(b' ', rest);
    match more {
        None => count_of(word),
        Some(_) => None,
    }
}

#[tactic(auto, unfolding(crate::specs::Reading::crash_at))]
fn crash_of(rest: Option<&[u8]>) -> Option<Command>
    ensures { result ≡ crash_at (parts_left 32 (option_map (λ r. r.now) rest.entry)) }
{
    let fate = Fate::named(only_part(b' ', rest)?)?;
    Some(Command::Crash { fate })
}

#[tactic(auto, unfolding(crate::specs::Reading::get_at))]
fn get_of(rest: Option<&[u8]>) -> Option<Command>
    ensures { result ≡ get_at (parts_left 32 (option_map (λ r. r.now) rest.entry)) }
{
    let rid = rid_of(only_part(b' ', rest)?)?;
    Some(Command::Get { rid })
}

#[tactic(auto, unfolding(crate::specs::Reading::find_at))]
fn find_of(alloc: Global, rest: Option<&[u8]>) -> Result<Option<Command>, AllocError>
    ensures { IfOk result (λ r. r ≡ find_at (parts_left 32 (option_map (λ r. r.now) rest.entry))) }
{
    let Some(word) = only_part(b' ', rest) else {
        return Ok(None);
    };
    let key = bytes_of(alloc, word)?;
    Ok(key.map(|key| Command::Find { key }))
}

// The command of this name that names no transaction, where it is one.
#[tactic(auto, unfolding(crate::specs::Reading::store_command_at))]
fn store_command_of(
    alloc: Global,
    verb: &[u8],
    rest: Option<&[u8]>,
) -> Result<Option<Command>, AllocError>
    ensures { IfOk result (λ r. r ≡ store_command_at verb.now (parts_left 32 (option_map (λ r. r.now) rest.entry))) }
{
    if verb == b"create".as_slice() {
        Ok(alone(rest, Command::Create))
    } else if verb == b"drop".as_slice() {
        Ok(alone(rest, Command::Drop))
    } else if verb == b"build".as_slice() {
        Ok(steps_of(rest).map(|count| Command::Build { count }))
    } else if verb == b"clean".as_slice() {
        Ok(steps_of(rest).map(|count| Command::Clean { count }))
    } else if verb == b"flush".as_slice() {
        Ok(alone(rest, Command::Flush))
    } else if verb == b"image".as_slice() {
        Ok(alone(rest, Command::Image))
    } else if verb == b"crash".as_slice() {
        Ok(crash_of(rest))
    } else if verb == b"get".as_slice() {
        Ok(get_of(rest))
    } else if verb == b"find".as_slice() {
        find_of(alloc, rest)
    } else if verb == b"dump".as_slice() {
        Ok(alone(rest, Command::Dump))
    } else {
        Ok(None)
    }
}

/// The command that a line spells, where it spells one.
#[tactic(auto, unfolding(crate::specs::Reading::command_at))]
pub fn command_of(alloc: Global, line: &[u8]) -> Result<Option<Command>, AllocError>
    ensures { IfOk result (λ r. r ≡ command_at (words line.now)) }
{
    let (verb, rest) = cut_at(b' ', line);
    if verb == b"begin".as_slice() {
        Ok(alone(rest, Command::Begin))
    } else if verb == b"insert".as_slice() {
        insert_of(alloc, rest)
    } else if verb == b"delete".as_slice() {
        Ok(delete_of(rest))
    } else if verb == b"update".as_slice() {
        update_of(alloc, rest)
    } else if verb == b"step".as_slice() {
        Ok(only_txn(rest).map(|txn| Command::Step { txn }))
    } else if verb == b"undo".as_slice() {
        Ok(only_txn(rest).map(|txn| Command::Undo { txn }))
    } else if verb == b"end".as_slice() {
        Ok(only_txn(rest).map(|txn| Command::End { txn }))
    } else if verb == b"commit".as_slice() {
        Ok(only_txn(rest).map(|txn| Command::Commit { txn }))
    } else {
        store_command_of(alloc, verb, rest)
    }
}
