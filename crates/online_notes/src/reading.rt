//! Reading notes.
ghost use Rattle.std.specs.Prelude.{◌≡◌, ◌≢◌, ◌∷◌, IfNone, IfSome};
ghost use Rattle.std.specs.Int.{from_be_bytes, w16, w32};
ghost use Rattle.online_model.specs.declared.note.Note.{Note};
ghost use Rattle.record_values.specs.declared.pair.Pair.{Pair};
ghost use Rattle.online_notes.specs.Spelling.{IsWritable, IsWritablePair, bytes_of, page_bytes, pair_bytes, slot_bytes};

use crate::writing::{ABSENT, BEGUN, CHECKPOINT, COMPLETE, LIVE, MARKED};
use online_model::{Life, Note};
use record_values::{Key, Mark, Pair, Rid, SLOTS_PER_PAGE};

// The page that four bytes spell.
fn page_of(bytes: &[u8; 4]) -> u32
    ensures number { result ≡ from_be_bytes w32 bytes.now }
    ensures spelled { page_bytes result ≡ bytes.now }
{
    u32::from_be_bytes(*bytes)
}

// The slot that two bytes spell.
fn slot_of(bytes: &[u8; 2]) -> u16
    ensures number { result ≡ from_be_bytes w16 bytes.now }
    ensures spelled { slot_bytes result ≡ bytes.now }
{
    u16::from_be_bytes(*bytes)
}

// The pair that these bytes spell.
fn pair_of(bytes: &[u8]) -> Option<Pair>
    ensures writable { IfSome result (λ p. IsWritablePair p) }
    ensures spelled { IfSome result (λ p. bytes.now ≡ pair_bytes p) }
    ensures none { IfNone result ((p : Pair) → IsWritablePair p → bytes.now ≢ pair_bytes p) }
{
    let (page, rest) = bytes.split_first_chunk::<4>()?;
    let (slot, key) = rest.split_first_chunk::<2>()?;
    let page = page_of(page);
    let slot = slot_of(slot);
    if slot >= SLOTS_PER_PAGE {
        return None;
    }
    let Ok(key) = Key::new(key) else {
        return None;
    };
    let rid = Rid { page, slot };
    Some(Pair { key, rid })
}

// The note that these bytes spell after a first byte that says what it sets.
fn note_of(first: u8, bytes: &[u8]) -> Option<Note>
    ensures writable { IfSome result (λ n. IsWritable n) }
    ensures spelled { IfSome result (λ n. first ∷ bytes.now ≡ bytes_of n) }
    ensures none { IfNone result ((n : Note) → IsWritable n → first ∷ bytes.now ≢ bytes_of n) }
{
    match first {
        LIVE => Some(Note::EntryIs(pair_of(bytes)?, Some(Mark::Live))),
        MARKED => Some(Note::EntryIs(pair_of(bytes)?, Some(Mark::Marked))),
        ABSENT => Some(Note::EntryIs(pair_of(bytes)?, None)),
        CHECKPOINT => Some(Note::LifeIs(Life::Building {
            highest: Some(pair_of(bytes)?),
        })),
        BEGUN if bytes.is_empty() => Some(Note::LifeIs(Life::Building { highest: None })),
        COMPLETE if bytes.is_empty() => Some(Note::LifeIs(Life::Complete)),
        _ => None,
    }
}

/// The note that these bytes spell, if they spell one.
pub fn decode(bytes: &[u8]) -> Option<Note>
    ensures writable { IfSome result (λ n. IsWritable n) }
    ensures spelled { IfSome result (λ n. bytes.now ≡ bytes_of n) }
    ensures none { IfNone result ((n : Note) → IsWritable n → bytes.now ≢ bytes_of n) }
{
    let (first, rest) = bytes.split_first()?;
    note_of(*first, rest)
}
