//! What stands at the front of some bytes. Each function takes one field off the front, and gives what is behind it;
//! none where the bytes are too few, or are no such field.
ghost use Rattle.std.specs.Prelude.{◌≡◌};
ghost use Rattle.std.specs.Option.{option_map};
ghost use Rattle.records.specs.Reading.{u16_at, u32_at, u64_at, byte_at, rid_at};

use byteorder::{BigEndian, ByteOrder};
use record_values::{Rid, SLOTS_PER_PAGE};

/// A number of two bytes, the most significant first.
#[tactic(auto, unfolding(crate::specs::Reading::u16_at))]
pub fn u16_of(bytes: &[u8]) -> Option<(u16, &[u8])>
    ensures { option_map (λ x. (x.0, x.1.now)) result ≡ u16_at bytes.now }
{
    if bytes.len() < 2 {
        return None;
    }
    Some((BigEndian::read_u16(bytes), &bytes[2..]))
}

/// A number of four bytes, the most significant first.
#[tactic(auto, unfolding(crate::specs::Reading::u32_at))]
pub fn u32_of(bytes: &[u8]) -> Option<(u32, &[u8])>
    ensures { option_map (λ x. (x.0, x.1.now)) result ≡ u32_at bytes.now }
{
    if bytes.len() < 4 {
        return None;
    }
    Some((BigEndian::read_u32(bytes), &bytes[4..]))
}

/// A number of eight bytes, the most significant first.
#[tactic(auto, unfolding(crate::specs::Reading::u64_at))]
pub fn u64_of(bytes: &[u8]) -> Option<(u64, &[u8])>
    ensures { option_map (λ x. (x.0, x.1.now)) result ≡ u64_at bytes.now }
{
    if bytes.len() < 8 {
        return None;
    }
    Some((BigEndian::read_u64(bytes), &bytes[8..]))
}

/// A byte.
#[tactic(auto, unfolding(crate::specs::Reading::byte_at))]
pub fn byte_of(bytes: &[u8]) -> Option<(u8, &[u8])>
    ensures { option_map (λ x. (x.0, x.1.now)) result ≡ byte_at bytes.now }
{
    match bytes {
        [] => None,
        [byte, rest @ ..] => Some((*byte, rest)),
    }
}

/// The place of a row: its page in four bytes, and its slot in two. None where no page has that slot.
#[tactic(auto, unfolding(crate::specs::Reading::rid_at))]
pub fn rid_of(bytes: &[u8]) -> Option<(Rid, &[u8])>
    ensures { option_map (λ x. (x.0, x.1.now)) result ≡ rid_at bytes.now }
{
    let (page, rest) = u32_of(bytes)?;
    let (slot, rest) = u16_of(rest)?;
    if slot < SLOTS_PER_PAGE {
        Some((Rid { page, slot }, rest))
    } else {
        None
    }
}
