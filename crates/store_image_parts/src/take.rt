// What stands at the front of some bytes. Padding within a field is zeros; behind the last field there may be anything.
ghost use Rattle.std.specs.Prelude.{◌≡◌, ◌≤◌, length, IfSome};
ghost use Rattle.record_values.specs.Version.{key_max, body_max};
ghost use Rattle.std.specs.Option.{option_map};
ghost use Rattle.store_image_parts.specs.Reading.{are_zeros, skipped, padded_at, row_at, pair_at};

use crate::row::row_size;
use records::front::{byte_of, rid_of};
use records::{Body, Key, Pair, Row, Version};

// Whether each byte is zero.
pub(crate) fn are_zeros(bytes: &[u8]) -> bool
    ensures { result ≡ are_zeros bytes.now }
{
    let mut any = 0;
    for byte in bytes {
        any |= *byte;
    }
    any == 0
}

// What is behind so many zeros.
#[tactic(auto, unfolding(crate::specs::Reading::skipped))]
pub(crate) fn skip(count: usize, bytes: &[u8]) -> Option<&[u8]>
    ensures { option_map (λ x. x.now) result ≡ skipped count bytes.now }
{
    if bytes.len() < count {
        return None;
    }
    if !are_zeros(&bytes[..count]) {
        return None;
    }
    Some(&bytes[count..])
}

// A field of so many bytes at most, which has its length in front, and zeros behind it up to the most.
#[tactic(auto, unfolding(crate::specs::Reading::padded_at))]
fn padded_of(max: usize, bytes: &[u8]) -> Option<(&[u8], &[u8])>
    ensures read { option_map (λ x. (x.0.now, x.1.now)) result ≡ padded_at max bytes.now }
    ensures within { IfSome result (λ x. length x.0.now ≤ max) }
{
    let (len, rest) = byte_of(bytes)?;
    let len = usize::from(len);
    if max < len {
        return None;
    }
    if rest.len() < max {
        return None;
    }
    if !are_zeros(&rest[len..max]) {
        return None;
    }
    let (field, _) = rest.split_at(len);
    let (_, behind) = rest.split_at(max);
    Some((field, behind))
}

fn key_of(version: Version, bytes: &[u8]) -> Option<(Key, &[u8])>
    ensures { option_map (λ x. (x.0, x.1.now)) result ≡ padded_at (key_max version) bytes.now }
{
    let (key, rest) = padded_of(version.key_max(), bytes)?;
    Some((Key::new(key).ok()?, rest))
}

fn body_of(version: Version, bytes: &[u8]) -> Option<(Body, &[u8])>
    ensures { option_map (λ x. (x.0, x.1.now)) result ≡ padded_at (body_max version) bytes.now }
{
    let (body, rest) = padded_of(version.body_max(), bytes)?;
    Some((Body::new(body).ok()?, rest))
}

#[tactic(auto, unfolding(crate::specs::Reading::row_at))]
pub(crate) fn row_of(version: Version, bytes: &[u8]) -> Option<(Option<Row>, &[u8])>
    ensures { option_map (λ x. (x.0, x.1.now)) result ≡ row_at version bytes.now }
{
    let (tag, rest) = byte_of(bytes)?;
    if tag == 0 {
        let rest = skip(row_size(version) - 1, rest)?;
        return Some((None, rest));
    }
    if tag != 1 {
        return None;
    }
    let Some((key, rest)) = key_of(version, rest) else {
        return None;
    };
    let Some((body, rest)) = body_of(version, rest) else {
        return None;
    };
    Some((Some(Row { key, body }), rest))
}

#[tactic(auto, unfolding(crate::specs::Reading::pair_at))]
pub(crate) fn pair_of(version: Version, bytes: &[u8]) -> Option<(Pair, &[u8])>
    ensures { option_map (λ x. (x.0, x.1.now)) result ≡ pair_at version bytes.now }
{
    let Some((key, rest)) = key_of(version, bytes) else {
        return None;
    };
    let Some((rid, rest)) = rid_of(rest) else {
        return None;
    };
    Some((Pair { key, rid }, rest))
}
