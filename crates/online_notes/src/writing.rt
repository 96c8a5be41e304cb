//! Writing notes.
ghost use Rattle.std.specs.Prelude.{◌≡◌, ◌+◌, ◌^◌, ◌<◌, ◌≤◌, ◌++◌, ◌∷◌, [], IfErr, OnErr, OnOk, length};
ghost use Rattle.std.specs.Prelude.{vec_capacity, vec_len};
ghost use Rattle.online_notes.specs.Spelling.{IsWritable, IsWritablePair, bytes_of, pair_bytes};

use online_model::{Life, Note};
use record_values::{Error, KEY_MAX, Mark, Pair, Rid};
use std::alloc::Allocator;

/// The most bytes of a note: what it sets, the place of a pair, and the key.
pub const NOTE_MAX: usize = KEY_MAX + 7;

// The first byte of a note says what it sets.
pub(crate) const LIVE: u8 = 1;

pub(crate) const MARKED: u8 = 2;

pub(crate) const ABSENT: u8 = 3;

pub(crate) const CHECKPOINT: u8 = 4;

pub(crate) const BEGUN: u8 = 5;

pub(crate) const COMPLETE: u8 = 6;

// Appends bytes for which there is room.
fn append<A: Allocator>(out: &mut Vec<u8, A>, bytes: &[u8])
    requires { vec_len out.old + length bytes.now ≤ vec_capacity out.old }
    ensures items { out.new.items ≡ out.old.items ++ bytes.now }
    ensures capacity { vec_capacity out.old ≤ vec_capacity out.new }
{
    match out.extend_from_slice(bytes) {
        Ok(()) => {}
        Err(_) => unreachable!(),
    }
}

// The page of a place.
fn page_in(rid: Rid) -> u32
    ensures number { result ≡ rid.page }
    ensures small { rid.page < 2 ^ 32 }
{
    rid.page
}

// Appends what is set, and of which pair.
fn append_pair<A: Allocator>(out: &mut Vec<u8, A>, first: u8, pair: &Pair)
    requires { vec_len out.old + NOTE_MAX ≤ vec_capacity out.old }
    ensures items { out.new.items ≡ out.old.items ++ (first ∷ pair_bytes pair.now) }
    ensures writable { IsWritablePair pair.now }
    ensures few { length (pair_bytes pair.now) < NOTE_MAX }
{
    let rid = pair.rid;
    append(out, &[first]);
    append(out, &page_in(rid).to_be_bytes());
    append(out, &rid.slot.to_be_bytes());
    append(out, pair.key.as_slice());
}

/// Appends the spelling of a note: a byte that says what it sets, and for a pair its page in four bytes, its slot in
/// two, the highest byte first, and its key. The length is not in it: the log of the host keeps it. The one error is
/// `NoMemory`, and nothing is then appended.
pub fn encode<A: Allocator>(note: &Note, out: &mut Vec<u8, A>) -> Result<(), Error>
    ensures ok { OnOk result (out.new.items ≡ out.old.items ++ bytes_of note.now) }
    ensures writable { OnOk result (IsWritable note.now) }
    ensures few { OnOk result (length (bytes_of note.now) ≤ NOTE_MAX) }
    ensures no_memory { IfErr result (λ e. e ≡ Error.NoMemory) }
    ensures unchanged { OnErr result (out.new.items ≡ out.old.items) }
{
    out.reserve(NOTE_MAX)?;
    match note {
        Note::EntryIs(pair, Some(Mark::Live)) => append_pair(out, LIVE, pair),
        Note::EntryIs(pair, Some(Mark::Marked)) => append_pair(out, MARKED, pair),
        Note::EntryIs(pair, None) => append_pair(out, ABSENT, pair),
        Note::LifeIs(
            Life::Building {
                highest: Some(pair),
            },
        ) => append_pair(out, CHECKPOINT, pair),
        Note::LifeIs(Life::Building { highest: None }) => append(out, &[BEGUN]),
        Note::LifeIs(Life::Complete) => append(out, &[COMPLETE]),
    }
    Ok(())
}
