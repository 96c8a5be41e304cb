// The fields that parts of an image have in common.
ghost use Rattle.std.specs.Prelude.{◌≡◌, ◌≤◌, ◌+◌, ◌++◌, length};
ghost use Rattle.records.specs.Spelling as as_bytes;
ghost use Rattle.records.specs.Spelling.{RidFits, PairFits};
ghost use Rattle.store_image_parts.specs.Spelling.{padded, row, pair, RowFitsIfSome};

use crate::buffer::Buffer;
use crate::row::ROW_SIZE;
use byteorder::{BigEndian, ByteOrder};
use records::{BODY_MAX, KEY_MAX, Pair, Rid, Row};

// The bytes of a place: page and slot.
pub(crate) const RID_SIZE: usize = 4 + 2;

// The bytes of a pair: the length of its key, the key with its padding, and its place.
pub(crate) const PAIR_SIZE: usize = 1 + KEY_MAX + RID_SIZE;

#[tactic(auto, unfolding(records::specs::Spelling::u16))]
pub(crate) fn put_u16<const N: usize>(out: &mut Buffer<N>, n: u16)
    requires { length out.old + 2 ≤ N }
    ensures put { out.new ≡ out.old ++ as_bytes.u16 n }
    ensures size { length out.new ≡ length out.old + 2 }
{
    let mut bytes = [0; 2];
    BigEndian::write_u16(&mut bytes, n);
    out.push(&bytes);
}

#[tactic(auto, unfolding(records::specs::Spelling::u32))]
pub(crate) fn put_u32<const N: usize>(out: &mut Buffer<N>, n: u32)
    requires { length out.old + 4 ≤ N }
    ensures put { out.new ≡ out.old ++ as_bytes.u32 n }
    ensures size { length out.new ≡ length out.old + 4 }
{
    let mut bytes = [0; 4];
    BigEndian::write_u32(&mut bytes, n);
    out.push(&bytes);
}

#[tactic(auto, unfolding(records::specs::Spelling::u64))]
pub(crate) fn put_u64<const N: usize>(out: &mut Buffer<N>, n: u64)
    requires { length out.old + 8 ≤ N }
    ensures put { out.new ≡ out.old ++ as_bytes.u64 n }
    ensures size { length out.new ≡ length out.old + 8 }
{
    let mut bytes = [0; 8];
    BigEndian::write_u64(&mut bytes, n);
    out.push(&bytes);
}

// A byte of length, the bytes, and zeros up to `max` of them.
pub(crate) fn put_padded<const N: usize>(out: &mut Buffer<N>, max: u8, bytes: &[u8])
    requires short { length bytes.now ≤ max }
    requires room { length out.old + (1 + max) ≤ N }
    ensures put { out.new ≡ out.old ++ padded max bytes.now }
    ensures size { length out.new ≡ length out.old + (1 + max) }
{
    out.push(&[bytes.len() as u8]);
    out.push(bytes);
    out.push_zeros(usize::from(max) - bytes.len());
}

// A place: page and slot.
pub(crate) fn put_rid<const N: usize>(out: &mut Buffer<N>, rid: Rid)
    requires { length out.old + RID_SIZE ≤ N }
    ensures put { out.new ≡ out.old ++ as_bytes.rid rid }
    ensures fits { RidFits rid }
    ensures size { length out.new ≡ length out.old + RID_SIZE }
{
    put_u32(out, rid.page);
    put_u16(out, rid.slot);
}

// A pair: its key and its place.
pub(crate) fn put_pair<const N: usize>(out: &mut Buffer<N>, found: &Pair)
    requires { length out.old + PAIR_SIZE ≤ N }
    ensures put { out.new ≡ out.old ++ pair found.now }
    ensures fits { PairFits found.now }
    ensures size { length out.new ≡ length out.old + PAIR_SIZE }
{
    put_padded(out, KEY_MAX as u8, found.key.as_slice());
    put_rid(out, found.rid);
}

// 1 and the row, or zeros.
pub(crate) fn put_row<const N: usize>(out: &mut Buffer<N>, found: &Option<Row>)
    requires { length out.old + ROW_SIZE ≤ N }
    ensures put { out.new ≡ out.old ++ row found.now }
    ensures fits { RowFitsIfSome found.now }
    ensures size { length out.new ≡ length out.old + ROW_SIZE }
{
    match found {
        None => out.push_zeros(ROW_SIZE),
        Some(row) => {
            out.push(&[1]);
            put_padded(out, KEY_MAX as u8, row.key.as_slice());
            put_padded(out, BODY_MAX as u8, row.body.as_slice());
        }
    }
}
