//! Heads of transactions.
ghost use Rattle.std.specs.Prelude.{◌≡◌, ◌≤◌, Option, IfSome};
ghost use Rattle.std.specs.Option.{option_map};
ghost use Rattle.records.specs.Spelling.{IsTxn};
ghost use Rattle.store_image_parts.specs.declared.head.Head.{Head};
ghost use Rattle.store_image_parts.specs.Reading.{head_at};
ghost use Rattle.store_image_parts.specs.Spelling.{head, HeadFitsIfSome};

use crate::buffer::Buffer;
use crate::fields::{put_u16, put_u64};
use records::front::{u16_of, u64_of};
use records::{CHANGES_MAX, Txn};

/// The bytes of a transaction's head.
pub const HEAD_SIZE: usize = 32;

/// A transaction that was active as an image began, and how many changes it may still take back.
#[derive(Clone, Copy, Debug, PartialEq, Eq)]
pub struct Head {
    /// The transaction.
    pub txn: Txn,
    /// Its changes, 64 at most in a head that was read.
    pub changes: u8,
}

/// The bytes of a transaction's head, or zeros where there is none.
pub fn spell_head(found: &Option<Head>) -> [u8; HEAD_SIZE]
    ensures spelled { result ≡ head found.now }
    ensures txn { IfSome found.now (λ h. IsTxn h.txn) }
{
    let mut bytes = Buffer::<HEAD_SIZE>::new();
    if let Some(found) = found {
        put_u64(&mut bytes, found.txn.number());
        put_u16(&mut bytes, u16::from(found.changes));
    }
    bytes.into_bytes()
}

// The head at the front, whatever is behind it.
#[tactic(auto, unfolding(crate::specs::Reading::head_at))]
fn head_of(bytes: &[u8]) -> Option<(Option<Head>, &[u8])>
    ensures read { option_map (λ x. (x.0, x.1.now)) result ≡ head_at bytes.now }
    ensures changes { IfSome result (λ x. IfSome x.0 (λ h. h.changes ≤ CHANGES_MAX)) }
{
    let (txn, rest) = u64_of(bytes)?;
    let (changes, rest) = u16_of(rest)?;
    let Some(txn) = Txn::new(txn) else {
        return Some((None, rest));
    };
    if u16::from(CHANGES_MAX) < changes {
        return None;
    }
    let changes = changes as u8;
    Some((Some(Head { txn, changes }), rest))
}

/// The transaction's head with these bytes, or none where they are zeros. `None` where they are neither.
pub fn read_head(bytes: &[u8; HEAD_SIZE]) -> Option<Option<Head>>
    ensures found { IfSome result (λ found. bytes.now ≡ head found) }
    ensures fits { IfSome result HeadFitsIfSome }
    ensures again { (value : Option Head) → HeadFitsIfSome value → bytes.now ≡ head value → result ≡ Some value }
{
    let Some(found) = head_of(bytes) else {
        return None;
    };
    if spell_head(&found.0) == *bytes {
        Some(found.0)
    } else {
        None
    }
}
