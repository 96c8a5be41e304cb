//! Entries of the index.
ghost use Rattle.std.specs.Prelude.{◌≡◌, Some, IfSome, length};
ghost use Rattle.std.specs.Option.{option_map};
ghost use Rattle.record_values.specs.declared.pair.Pair.{Pair};
ghost use Rattle.record_values.specs.declared.pair.Mark.{Mark};
ghost use Rattle.records.specs.Spelling.{PairFits, PairFitsIn};
ghost use Rattle.store_image_parts.specs.Reading.{entry_at};
ghost use Rattle.store_image_parts.specs.Spelling.{entry, entry_in, entry_size, mark};

use crate::buffer::Buffer;
use crate::fields::put_pair;
use crate::take::pair_of;
use records::front::byte_of;
use records::{Mark, Pair, Version};

/// The bytes of an entry.
pub const ENTRY_SIZE: usize = 64;

// The byte of a mark.
fn mark_byte(found: Mark) -> u8
    ensures { result ≡ mark found }
{
    match found {
        Mark::Live => 1,
        Mark::Marked => 2,
    }
}

/// The bytes of an entry.
pub fn spell_entry(found: &(Pair, Mark)) -> [u8; ENTRY_SIZE]
    ensures spelled { result ≡ entry found.now }
    ensures fits { PairFits found.now.0 }
{
    let mut bytes = Buffer::<ENTRY_SIZE>::new();
    put_pair(&mut bytes, &found.0);
    bytes.push(&[mark_byte(found.1)]);
    bytes.into_bytes()
}

// The entry at the front.
#[tactic(auto, unfolding(crate::specs::Reading::entry_at))]
fn entry_of(version: Version, bytes: &[u8]) -> Option<((Pair, Mark), &[u8])>
    ensures { option_map (λ x. (x.0, x.1.now)) result ≡ entry_at version bytes.now }
{
    let Some((pair, rest)) = pair_of(version, bytes) else {
        return None;
    };
    let (tag, rest) = byte_of(rest)?;
    match tag {
        1 => Some(((pair, Mark::Live), rest)),
        2 => Some(((pair, Mark::Marked), rest)),
        _ => None,
    }
}

/// The bytes of an entry in a version of the format.
pub fn entry_size(version: Version) -> usize
    ensures { result ≡ entry_size version }
{
    8 + version.key_max()
}

/// The entry with these bytes in a version of the format. `None` where they are none's.
pub fn read_entry_in(version: Version, bytes: &[u8]) -> Option<(Pair, Mark)>
    requires { length bytes.now ≡ entry_size version }
    ensures found { IfSome result (λ found. bytes.now ≡ entry_in version found) }
    ensures fits { IfSome result (λ found. PairFitsIn version found.0) }
    ensures again { (value : Pair × Mark) → PairFitsIn version value.0 → bytes.now ≡ entry_in version value
        → result ≡ Some value }
{
    let Some(found) = entry_of(version, bytes) else {
        return None;
    };
    Some(found.0)
}

/// The entry with these bytes. `None` where they are none's.
pub fn read_entry(bytes: &[u8; ENTRY_SIZE]) -> Option<(Pair, Mark)>
    ensures found { IfSome result (λ found. bytes.now ≡ entry found) }
    ensures fits { IfSome result (λ found. PairFits found.0) }
    ensures again { (value : Pair × Mark) → PairFits value.0 → bytes.now ≡ entry value → result ≡ Some value }
{
    read_entry_in(Version::Two, bytes)
}
