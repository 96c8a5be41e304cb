//! Groups of records, as the bytes of a slot's body.
ghost use Rattle.std.specs.Prelude.{◌≡◌, ◌↔◌, ◌+◌, ◌-◌, ◌≤◌, ◌<◌, ◌++◌, ℕ, List, length, take, drop, All, IfOk, OnOk};
ghost use Rattle.std.specs.Prelude.{IfErr, IsTrue, MatchOption};
ghost use Rattle.records.specs.RecordValue.{RecordValue};
ghost use Rattle.records.specs.Spelling.{Fits};
ghost use Rattle.gate_log.specs.Group.{spellings, header, FitsGroup, IsGroup, IsGroupIn};
ghost use Rattle.gate_log.specs.Steps.{AreSpelled};

use byteorder::{BigEndian, ByteOrder};
use records::{Error, Record, SLOT_SECTORS, Version};
use sector_device::{SECTOR_SIZE, are_zeros};
use std::alloc::{AllocError, Allocator};

/// The sectors of a slot behind its gate.
pub(crate) const BODY_SECTORS: u64 = SLOT_SECTORS - 1;

/// The bytes of a slot's body.
pub(crate) const BODY_SIZE: usize = BODY_SECTORS as usize * SECTOR_SIZE;

/// The bytes in front of a group's records: how many records there are, and how many bytes they take.
pub(crate) const HEADER_SIZE: usize = 4;

/// The most bytes that the records of a group take (the format document, "Log").
pub const GROUP_MAX: usize = BODY_SIZE - HEADER_SIZE;

/// How many of the records, from the front, the longest group of them has: together they take `GROUP_MAX` bytes at
/// most, and with one more they take more, or there is none. It is 0 only where there is no record.
pub fn group_len(records: &[Record]) -> usize
    ensures within { result ≤ length records.now }
    ensures fits { 0 < length records.now → FitsGroup (take result records.now) }
    ensures most { result < length records.now → GROUP_MAX < length (spellings (take (result + 1) records.now)) }
{
    let mut len = 0;
    for (count, record) in records.iter().enumerate() {
        len += record.size();
        if GROUP_MAX < len {
            return count;
        }
    }
    records.len()
}

/// Whether the records can be one group of a log: there is one at least, and together they take `GROUP_MAX` bytes at
/// most. This is what `LogArea::append` requires.
pub fn fits(records: &[Record]) -> bool
    ensures { IsTrue result ↔ FitsGroup records.now }
{
    !records.is_empty() && group_len(records) == records.len()
}

// How many bytes the spellings of these records take together.
fn spelled_len(records: &[Record]) -> usize
    requires { FitsGroup records.now }
    ensures { result ≡ length (spellings records.now) }
{
    let mut len = 0;
    for record in records {
        len += record.size();
    }
    len
}

// Appends the spellings of the records.
fn put_all<A: Allocator>(out: &mut Vec<u8, A>, records: &[Record]) -> Result<(), Error>
    ensures ok { OnOk result (out.new.items ≡ out.old.items ++ spellings records.now) }
    ensures fits { OnOk result (All Fits records.now) }
    ensures no_memory { IfErr result (λ e. e ≡ Error.NoMemory) }
{
    for record in records {
        record.encode_into(out)?;
    }
    Ok(())
}

// The number of records, and the length of their spellings.
#[tactic(auto, unfolding(crate::specs::Group::header, records::specs::Spelling::u16))]
fn header(count: u16, len: u16) -> [u8; HEADER_SIZE]
    ensures { result ≡ header count len }
{
    let mut bytes = [0; HEADER_SIZE];
    BigEndian::write_u16(&mut bytes, count);
    BigEndian::write_u16(&mut bytes[2..], len);
    bytes
}

/// The body of a group of these records, as `LogArea::append_spelled` writes it. `fits` tells whether the records can
/// be a group. So the memory for a group is taken before the first write, also of several.
pub fn spell<A: Allocator + Copy>(alloc: A, records: &[Record]) -> Result<Vec<u8, A>, Error>
    requires { FitsGroup records.now }
    ensures ok { IfOk result (λ body. IsGroup records.now body.items) }
    ensures no_memory { IfErr result (λ e. e ≡ Error.NoMemory) }
{
    let header = header(records.len() as u16, spelled_len(records) as u16);
    let zeros = [0; BODY_SIZE];
    let mut body = Vec::with_capacity(alloc, BODY_SIZE)?;
    body.extend_from_slice(&header)?;
    put_all(&mut body, records)?;
    let (_, rest) = zeros.split_at(body.len());
    body.extend_from_slice(rest)?;
    Ok(body)
}

// The two numbers at the front.
fn read_header(body: &[u8]) -> (u16, u16)
    requires { HEADER_SIZE ≤ length body.now }
    ensures { body.now ≡ header result.0 result.1 ++ drop HEADER_SIZE body.now }
{
    let (_, behind) = body.split_at(2);
    (BigEndian::read_u16(body), BigEndian::read_u16(behind))
}

// This many records, spelled one after the other with nothing behind them.
fn spelled_records<A: Allocator>(
    alloc: A,
    version: Version,
    count: u16,
    bytes: &[u8],
) -> Result<Option<Vec<Record, A>>, Error>
    ensures found { IfOk result (λ found. MatchOption found
        ((records : List RecordValue) → ¬ AreSpelled version records count bytes.now)
        (λ records. AreSpelled version records.items count bytes.now)) }
    ensures no_memory { IfErr result (λ e. e ≡ Error.NoMemory) }
{
    let mut records = Vec::new(alloc);
    let mut rest = bytes;
    for _i in 0..count {
        let Some(found) = Record::decode_in(version, rest) else {
            return Ok(None);
        };
        records.push(found.0)?;
        let (_, behind) = rest.split_at(found.1);
        rest = behind;
    }
    if rest.is_empty() {
        Ok(Some(records))
    } else {
        Ok(None)
    }
}

/// The records of a group with this body, if it is one.
pub(crate) fn group_records<A: Allocator>(
    alloc: A,
    version: Version,
    body: &[u8],
) -> Result<Option<Vec<Record, A>>, Error>
    requires { length body.now ≡ BODY_SIZE }
    ensures found { IfOk result (λ found. MatchOption found
        ((records : List RecordValue) → ¬ IsGroupIn version records body.now)
        (λ records. IsGroupIn version records.items body.now)) }
    ensures no_memory { IfErr result (λ e. e ≡ Error.NoMemory) }
{
    let (count, len) = read_header(body);
    if count == 0 {
        return Ok(None);
    }
    let len = usize::from(len);
    if GROUP_MAX < len {
        return Ok(None);
    }
    let (_, rest) = body.split_at(HEADER_SIZE);
    let (spelled, zeros) = rest.split_at(len);
    if !are_zeros(zeros) {
        return Ok(None);
    }
    spelled_records(alloc, version, count, spelled)
}
