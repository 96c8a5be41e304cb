//! The header of an image.
ghost use Rattle.std.specs.Prelude.{◌≡◌, ◌≤◌, ◌+◌, ◌++◌, Some, length, IfSome};
ghost use Rattle.std.specs.Option.{option_map};
ghost use Rattle.store_image_parts.specs.declared.header.Header.{Header};
ghost use Rattle.store_image_parts.specs.Reading.{highest_at, life_at, header_at};
ghost use Rattle.store_image_parts.specs.Spelling.{header, header_in, highest, life, PairFitsIfSome, LifeFits};
ghost use Rattle.store_image_parts.specs.Spelling.{HeaderFits};
ghost use Rattle.store_image_parts.specs.Spelling.{HeaderFitsIn};

use crate::buffer::Buffer;
use crate::fields::{PAIR_SIZE, put_pair, put_u32, put_u64};
use crate::take::{are_zeros, pair_of, skip};
use model::Life;
use records::front::{byte_of, u32_of, u64_of};
use records::{LAST_NUMBER, Pair, Version};
use sector_device::SECTOR_SIZE;

// The bytes of a highest pair: whether there is one, and the pair.
pub(crate) const HIGHEST_SIZE: usize = 1 + PAIR_SIZE;

// The bytes of a life: its kind, and the highest pair.
const LIFE_SIZE: usize = 1 + HIGHEST_SIZE;

/// What an image's header says.
#[derive(Clone, Copy, Debug, PartialEq, Eq)]
pub struct Header {
    /// The index's life at the image's base.
    pub life: Life,
    /// The number of the last record made as the image began, 2^62 at most.
    pub base: u64,
    /// How many entries were copied.
    pub entries: u32,
}

// 0, or 1 and the pair.
fn put_highest<const N: usize>(out: &mut Buffer<N>, found: &Option<Pair>)
    requires { length out.old + HIGHEST_SIZE ≤ N }
    ensures put { out.new ≡ out.old ++ highest found.now }
    ensures fits { PairFitsIfSome found.now }
    ensures size { length out.new ≡ length out.old + HIGHEST_SIZE }
{
    match found {
        None => out.push_zeros(HIGHEST_SIZE),
        Some(pair) => {
            out.push(&[1]);
            put_pair(out, pair);
        }
    }
}

// How far the index is, and up to which pair it is built.
fn put_life<const N: usize>(out: &mut Buffer<N>, found: &Life)
    requires { length out.old + LIFE_SIZE ≤ N }
    ensures put { out.new ≡ out.old ++ life found.now }
    ensures fits { LifeFits found.now }
    ensures size { length out.new ≡ length out.old + LIFE_SIZE }
{
    match found {
        Life::Absent => {
            out.push(&[0]);
            put_highest(out, &None);
        }
        Life::Building { highest } => {
            out.push(&[1]);
            put_highest(out, highest);
        }
        Life::Complete => {
            out.push(&[2]);
            put_highest(out, &None);
        }
    }
}

/// The sector of an image's header.
pub fn spell_header(found: &Header) -> [u8; SECTOR_SIZE]
    ensures spelled { result ≡ header found.now }
    ensures fits { LifeFits found.now.life }
{
    let mut bytes = Buffer::<SECTOR_SIZE>::new();
    put_life(&mut bytes, &found.life);
    put_u64(&mut bytes, found.base);
    put_u32(&mut bytes, found.entries);
    bytes.into_bytes()
}

#[tactic(auto, unfolding(crate::specs::Reading::highest_at))]
fn highest_of(version: Version, bytes: &[u8]) -> Option<(Option<Pair>, &[u8])>
    ensures { option_map (λ x. (x.0, x.1.now)) result ≡ highest_at version bytes.now }
{
    let (tag, rest) = byte_of(bytes)?;
    if tag == 0 {
        let rest = skip(7 + version.key_max(), rest)?;
        return Some((None, rest));
    }
    if tag != 1 {
        return None;
    }
    let Some((pair, rest)) = pair_of(version, rest) else {
        return None;
    };
    Some((Some(pair), rest))
}

#[tactic(auto, unfolding(crate::specs::Reading::life_at))]
fn life_of(version: Version, bytes: &[u8]) -> Option<(Life, &[u8])>
    ensures { option_map (λ x. (x.0, x.1.now)) result ≡ life_at version bytes.now }
{
    let (tag, rest) = byte_of(bytes)?;
    match tag {
        0 => {
            let rest = skip(8 + version.key_max(), rest)?;
            Some((Life::Absent, rest))
        }
        1 => {
            let Some((highest, rest)) = highest_of(version, rest) else {
                return None;
            };
            Some((Life::Building { highest }, rest))
        }
        2 => {
            let rest = skip(8 + version.key_max(), rest)?;
            Some((Life::Complete, rest))
        }
        _ => None,
    }
}

// The header at the front, whatever is behind it.
#[tactic(auto, unfolding(crate::specs::Reading::header_at))]
fn header_of(version: Version, bytes: &[u8]) -> Option<(Header, &[u8])>
    ensures { option_map (λ x. (x.0, x.1.now)) result ≡ header_at version bytes.now }
{
    let Some((life, rest)) = life_of(version, bytes) else {
        return None;
    };
    let (base, rest) = u64_of(rest)?;
    let (entries, rest) = u32_of(rest)?;
    Some((
        Header {
            life,
            base,
            entries,
        },
        rest,
    ))
}

/// What the sector of an image's header says in a version of the format. `None` where it is no header.
pub fn read_header_in(version: Version, bytes: &[u8; SECTOR_SIZE]) -> Option<Header>
    ensures found { IfSome result (λ found. bytes.now ≡ header_in version found) }
    ensures fits { IfSome result (HeaderFitsIn version) }
    ensures again { (value : Header) → HeaderFitsIn version value → bytes.now ≡ header_in version value
        → result ≡ Some value }
{
    let Some(found) = header_of(version, bytes) else {
        return None;
    };
    if LAST_NUMBER < found.0.base {
        return None;
    }
    if are_zeros(found.1) {
        Some(found.0)
    } else {
        None
    }
}

/// What the sector of an image's header says. `None` where it is no header.
pub fn read_header(bytes: &[u8; SECTOR_SIZE]) -> Option<Header>
    ensures found { IfSome result (λ found. bytes.now ≡ header found) }
    ensures fits { IfSome result HeaderFits }
    ensures again { (value : Header) → HeaderFits value → bytes.now ≡ header value → result ≡ Some value }
{
    read_header_in(Version::Two, bytes)
}
