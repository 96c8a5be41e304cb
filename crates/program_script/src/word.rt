//! Words of a line: numbers, places of rows, bytes, and names of files.
ghost use Rattle.std.specs.Prelude.{◌≡◌, IfOk, IfSome, List, None, ℕ};
ghost use Rattle.std.specs.List.{list_all, list_any};
ghost use Rattle.std.specs.Char.{is_ascii_graphic, is_ascii_uppercase};
ghost use Rattle.program_script.specs.Grammar.{IsByteText};
ghost use Rattle.program_script.specs.Reading.{begins_as_number, number_at, txn_at, count_at, rid_at, text_at, hex_at};
ghost use Rattle.program_script.specs.Reading.{is_name, name_at};

use crate::byte_text::ByteText;
use crate::parts::{cut_at, only_part};
use hex::FromHexError;
use records::{Rid, SLOTS_PER_PAGE, Txn};
use std::alloc::{AllocError, Global};

/// How many steps a command asks for at most.
pub const STEPS_MAX: u32 = 100_000;

fn has_no_leading_zero(word: &[u8]) -> bool
    ensures { result ≡ begins_as_number word.now }
{
    match word {
        [] => false,
        [digit] => b'0' <= *digit && *digit <= b'9',
        [first, ..] => b'1' <= *first && *first <= b'9',
    }
}

/// The number that this word is in decimal, without leading zeros.
pub fn number_of(word: &[u8]) -> Option<u32>
    ensures { result ≡ number_at word.now }
{
    if !has_no_leading_zero(word) {
        return None;
    }
    match std::str::from_utf8(word) {
        Ok(digits) => digits.parse::<u32>().ok(),
        Err(_) => None,
    }
}

/// The transaction of this number.
#[tactic(auto, unfolding(crate::specs::Reading::txn_at))]
pub fn txn_of(word: &[u8]) -> Option<Txn>
    ensures { result ≡ txn_at word.now }
{
    let number = number_of(word)?;
    Txn::new(u64::from(number))
}

/// How many steps this word asks for.
#[tactic(auto, unfolding(crate::specs::Reading::count_at))]
pub fn count_of(word: &[u8]) -> Option<u32>
    ensures { result ≡ count_at word.now }
{
    let count = number_of(word)?;
    if 1 <= count && count <= STEPS_MAX {
        Some(count)
    } else {
        None
    }
}

/// The place that this word names: a page, a point and a slot.
#[tactic(auto, unfolding(crate::specs::Reading::rid_at))]
pub fn rid_of(word: &[u8]) -> Option<Rid>
    ensures { result ≡ rid_at word.now }
{
    let (page, slot) = cut_at(b'.', word);
    let page = number_of(page)?;
    let slot = number_of(only_part(b'.', slot)?)?;
    if slot < u32::from(SLOTS_PER_PAGE) {
        Some(Rid {
            page,
            slot: slot as u16,
        })
    } else {
        None
    }
}

fn has_upper_case(digits: &[u8]) -> bool
    ensures { result ≡ list_any is_ascii_uppercase digits.now }
{
    digits.iter().any(|digit| digit.is_ascii_uppercase())
}

fn is_graphic(bytes: &[u8]) -> bool
    ensures { result ≡ list_all is_ascii_graphic bytes.now }
{
    bytes.iter().all(|byte| byte.is_ascii_graphic())
}

#[tactic(auto, unfolding(crate::specs::Reading::hex_at))]
fn hex_of(alloc: Global, digits: &[u8]) -> Result<Option<ByteText>, AllocError>
    ensures { IfOk result (λ r. r ≡ hex_at digits.now) }
{
    if has_upper_case(digits) {
        return Ok(None);
    }
    match hex::decode(alloc, digits) {
        Ok(bytes) => Ok(Some(ByteText::new(bytes))),
        Err(FromHexError::OutOfMemory) => Err(AllocError),
        Err(_) => Ok(None),
    }
}

/// The bytes that this word gives: as they stand, or in hexadecimal digits.
#[tactic(auto, unfolding(crate::specs::Reading::text_at))]
pub fn bytes_of(alloc: Global, word: &[u8]) -> Result<Option<ByteText>, AllocError>
    ensures { IfOk result (λ r. r ≡ text_at word.now) }
{
    match word {
        [b'=', bytes @ ..] => {
            if is_graphic(bytes) {
                let bytes = Vec::from_slice(alloc, bytes)?;
                Ok(Some(ByteText::new(bytes)))
            } else {
                Ok(None)
            }
        }
        [b':', digits @ ..] => hex_of(alloc, digits),
        _ => Ok(None),
    }
}

// Whether the word is graphic bytes, one at least.
fn is_name(word: &[u8]) -> bool
    ensures { result ≡ is_name word.now }
{
    match word {
        [] => false,
        [first, rest @ ..] => first.is_ascii_graphic() && is_graphic(rest),
    }
}

/// The name of a file that this word is.
#[tactic(auto, unfolding(crate::specs::Reading::name_at))]
pub fn name_of(alloc: Global, word: &[u8]) -> Result<Option<ByteText>, AllocError>
    ensures { IfOk result (λ r. r ≡ name_at word.now) }
{
    if !is_name(word) {
        return Ok(None);
    }
    let bytes = Vec::from_slice(alloc, word)?;
    Ok(Some(ByteText::new(bytes)))
}

/// The bytes that a word gives, as one of a script does; none where it gives none.
pub fn read_bytes(alloc: Global, word: &[u8]) -> Result<Option<ByteText>, AllocError>
    ensures given { IfOk result (λ found. IfSome found (IsByteText word.now)) }
    ensures none { IfOk result (λ found. found ≡ None → (bytes : List ℕ) → ¬ IsByteText word.now bytes) }
{
    let found = bytes_of(alloc, word)?;
    Ok(found)
}
