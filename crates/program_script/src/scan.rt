//! What a line that asks for a range of the index says of it.
ghost use Rattle.std.specs.Prelude.{◌≡◌, IfOk};
ghost use Rattle.std.specs.Option.{option_map};
ghost use Rattle.program_script.specs.Reading.{parts_left};
ghost use Rattle.program_script.specs.ReadingScans.{between_at, from_at, keys_at, limit_at, manner_at};

use crate::byte_text::ByteText;
use crate::parts::{cut_at, only_part};
use crate::word::{bytes_of, count_of};
use std::alloc::{AllocError, Global};

/// The keys that a scan goes over.
#[derive(Drop)]
pub enum Span {
    /// All keys.
    Whole,
    /// The keys from one on.
    From { first: ByteText },
    /// The keys from one to another, both of them too.
    Between { first: ByteText, last: ByteText },
}

/// A range of the index that is asked for, and how many of its pairs, or all: `scan`, `scan <first>` or
/// `scan <first> <last>`, then `back` where the last pair is to come first, and behind it `count <count>`.
#[derive(Drop)]
pub struct Scan {
    pub span: Span,
    pub is_back: bool,
    pub limit: Option<u32>,
}

// How many pairs are asked for, where nothing else is left.
#[tactic(auto, unfolding(crate::specs::ReadingScans::limit_at))]
fn limit_of(rest: Option<&[u8]>) -> Option<Option<u32>>
    ensures { result ≡ limit_at (parts_left 32 (option_map (λ r. r.now) rest.entry)) }
{
    let Some(rest) = rest else {
        return Some(None);
    };
    let (name, more) = cut_at(b' ', rest);
    if name == b"count".as_slice() {
        let count = count_of(only_part(b' ', more)?)?;
        Some(Some(count))
    } else {
        None
    }
}

// Whether the last pair is to come first, and how many pairs are asked for, where nothing else is left.
#[tactic(auto, unfolding(crate::specs::ReadingScans::manner_at))]
fn manner_of(rest: Option<&[u8]>) -> Option<(bool, Option<u32>)>
    ensures { result ≡ manner_at (parts_left 32 (option_map (λ r. r.now) rest.entry)) }
{
    let Some(words) = rest else {
        return Some((false, None));
    };
    let (name, more) = cut_at(b' ', words);
    if name == b"back".as_slice() {
        Some((true, limit_of(more)?))
    } else {
        Some((false, limit_of(rest)?))
    }
}

// What is asked for, where the first key was read.
#[tactic(auto, unfolding(crate::specs::ReadingScans::between_at))]
fn between_of(
    alloc: Global,
    first: ByteText,
    rest: Option<&[u8]>,
) -> Result<Option<Scan>, AllocError>
    ensures { IfOk result (λ r. r ≡ between_at first (parts_left 32 (option_map (λ r. r.now) rest.entry))) }
{
    let Some(rest) = rest else {
        return Ok(None);
    };
    let (word, more) = cut_at(b' ', rest);
    let Some(last) = bytes_of(alloc, word)? else {
        return Ok(None);
    };
    let Some((is_back, limit)) = manner_of(more) else {
        return Ok(None);
    };
    Ok(Some(Scan {
        span: Span::Between { first, last },
        is_back,
        limit,
    }))
}

// What is asked for, where it begins with the first key.
#[tactic(auto, unfolding(crate::specs::ReadingScans::from_at))]
fn from_of(alloc: Global, rest: Option<&[u8]>) -> Result<Option<Scan>, AllocError>
    ensures { IfOk result (λ r. r ≡ from_at (parts_left 32 (option_map (λ r. r.now) rest.entry))) }
{
    let Some(rest) = rest else {
        return Ok(None);
    };
    let (word, more) = cut_at(b' ', rest);
    let Some(first) = bytes_of(alloc, word)? else {
        return Ok(None);
    };
    match manner_of(more) {
        Some((is_back, limit)) => Ok(Some(Scan {
            span: Span::From { first },
            is_back,
            limit,
        })),
        None => between_of(alloc, first, more),
    }
}

/// What is asked for behind the name.
#[tactic(auto, unfolding(crate::specs::ReadingScans::keys_at))]
pub fn keys_of(alloc: Global, rest: Option<&[u8]>) -> Result<Option<Scan>, AllocError>
    ensures { IfOk result (λ r. r ≡ keys_at (parts_left 32 (option_map (λ r. r.now) rest.entry))) }
{
    match manner_of(rest) {
        Some((is_back, limit)) => Ok(Some(Scan {
            span: Span::Whole,
            is_back,
            limit,
        })),
        None => from_of(alloc, rest),
    }
}
