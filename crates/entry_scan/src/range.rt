//! Ranges of keys.
ghost use Rattle.std.specs.Prelude.{◌≡◌, ◌<◌, ◌≤◌, ◌-◌, [], ◌∷◌, ◌++◌, ◌↔◌, ℕ, List, IfSome, length, nat_eq, replicate};
ghost use Rattle.std.specs.Prelude.{true};
ghost use Rattle.std.specs.BTreeMap.Range.{is_from_start, is_past_end};
ghost use Rattle.std.specs.Cmp.Lexicographic.{slice_cmp};
ghost use Rattle.std.specs.List.{starts_with};
ghost use Rattle.std.specs.Ordering.{nat_cmp};
ghost use Rattle.std.specs.declared.cmp.Ordering.TheVariants.{Less};
ghost use Rattle.record_values.specs.declared.pair.Pair.{Pair};
ghost use Rattle.record_values.specs.Orders.{is_above};
ghost use Rattle.entry_scan.specs.Backward.{is_before};
ghost use Rattle.entry_scan.specs.Ranges.{IsKey, is_within, only};
ghost use Rattle.entry_scan.specs.Visible.{is_shown};

use btree_node::Entry;
use record_values::{KEY_MAX, Key, Mark, Pair, Rid, SLOTS_PER_PAGE};
use std::ops::Bound;

// The place before all others.
const FIRST: Rid = Rid { page: 0, slot: 0 };

// The place after all others.
const LAST: Rid = Rid {
    page: u32::MAX,
    slot: SLOTS_PER_PAGE - 1,
};

/// The keys from one bound to another, in the order of their bytes.
#[derive(Clone, Copy, PartialEq, Eq)]
pub struct KeyRange {
    pub from: Bound<Key>,
    pub to: Bound<Key>,
}

// The key of bytes that fit.
fn key_of(bytes: &[u8]) -> Key
    requires { length bytes.now ≤ KEY_MAX }
    ensures { result ≡ bytes.now }
{
    match Key::new(bytes) {
        Ok(key) => key,
        Err(_) => unreachable!(),
    }
}

// The last of the keys that begin with these bytes.
fn last_beginning_with(front: &[u8]) -> Key
    requires { length front.now ≤ KEY_MAX }
    ensures { result ≡ front.now ++ replicate (KEY_MAX - length front.now) 255 }
{
    let mut bytes = [u8::MAX; KEY_MAX];
    bytes[..front.len()].copy_from_slice(front);
    key_of(&bytes)
}

// The last of the keys before the one with these bytes and this last one.
fn last_before(front: &[u8], last: u8) -> Key
    requires { length front.now < KEY_MAX }
    ensures { slice_cmp nat_cmp result (front.now ++ last ∷ []) ≡ Less }
{
    if last == 0 {
        return key_of(front);
    }
    let mut bytes = [u8::MAX; KEY_MAX];
    bytes[..front.len()].copy_from_slice(front);
    bytes[front.len()] = last - 1;
    key_of(&bytes)
}

// A pair before those of the key; none where no key is before it. (That it is next to them, no clause says.)
fn before_key(key: &Key) -> Option<Pair>
    ensures { IfSome result (λ p. slice_cmp nat_cmp p.key key.now ≡ Less) }
{
    let (last, front) = key.as_slice().split_last()?;
    Some(Pair {
        key: last_before(front, *last),
        rid: LAST,
    })
}

// The key of these bytes and one more.
fn key_with(front: &[u8], last: u8) -> Key
    requires { length front.now < KEY_MAX }
    ensures { result ≡ front.now ++ last ∷ [] }
{
    let mut bytes = [0; KEY_MAX];
    bytes[..front.len()].copy_from_slice(front);
    bytes[front.len()] = last;
    key_of(&bytes[..front.len() + 1])
}

// A key after all that begin with these bytes; none where no key is.
fn key_behind(bytes: &[u8]) -> Option<Key>
    requires { length bytes.now ≤ KEY_MAX }
    ensures { IfSome result (λ key. (rest : List ℕ) → slice_cmp nat_cmp (bytes.now ++ rest) key ≡ Less) }
{
    let (last, front) = bytes.split_last()?;
    if *last == u8::MAX {
        key_behind(front)
    } else {
        Some(key_with(front, *last + 1))
    }
}

// A pair after those of the key; none where no key is after it. (That it is next to them, no clause says.)
fn behind_key(key: &Key) -> Option<Pair>
    ensures { IfSome result (λ p. slice_cmp nat_cmp key.now p.key ≡ Less) }
{
    let bytes = key.as_slice();
    let next = if bytes.len() < KEY_MAX {
        key_with(bytes, 0)
    } else {
        key_behind(bytes)?
    };
    Some(Pair {
        key: next,
        rid: FIRST,
    })
}

impl KeyRange {
    /// All keys.
    pub fn all() -> KeyRange
        ensures { (key : List ℕ) → is_within result key ≡ true }
    {
        KeyRange {
            from: Bound::Unbounded,
            to: Bound::Unbounded,
        }
    }

    /// This key alone.
    pub fn only(key: Key) -> KeyRange
        ensures range { result ≡ only key }
        ensures key { (other : List ℕ) → (is_within result other ≡ true) ↔ (other ≡ key) }
    {
        KeyRange {
            from: Bound::Included(key),
            to: Bound::Included(key),
        }
    }

    /// The keys that begin with these bytes, which stand together in the order of keys.
    pub fn prefix(prefix: Key) -> KeyRange
        ensures { (key : List ℕ) → IsKey key → is_within result key ≡ starts_with nat_eq key prefix }
    {
        KeyRange {
            from: Bound::Included(prefix),
            to: Bound::Included(last_beginning_with(prefix.as_slice())),
        }
    }

    /// Whether the range has begun at the key.
    pub(crate) fn has_begun(&self, key: &Key) -> bool
        ensures { result ≡ is_from_start (slice_cmp nat_cmp) self.now.from key.now }
    {
        match &self.from {
            Bound::Included(from) => from.cmp(key).is_le(),
            Bound::Excluded(from) => from.cmp(key).is_lt(),
            Bound::Unbounded => true,
        }
    }

    /// Whether the key comes after all of the range.
    pub fn is_past(&self, key: &Key) -> bool
        ensures { result ≡ is_past_end (slice_cmp nat_cmp) self.now.to key.now }
    {
        match &self.to {
            Bound::Included(to) => to.cmp(key).is_lt(),
            Bound::Excluded(to) => to.cmp(key).is_le(),
            Bound::Unbounded => false,
        }
    }

    /// Whether the range has the key.
    pub fn contains(&self, key: &Key) -> bool
        ensures { result ≡ is_within self.now key.now }
    {
        self.has_begun(key) && !self.is_past(key)
    }

    /// Whether the entry is live, and its key in the range.
    pub(crate) fn shows(&self, entry: &Entry) -> bool
        ensures { result ≡ is_shown self.now (entry.now.pair, entry.now.mark) }
    {
        match entry.mark {
            Mark::Live => self.contains(&entry.pair.key),
            Mark::Marked => false,
        }
    }

    /// A pair before all of the range; none where no pair can be before it. (That it is next to the beginning, no
    /// clause says.)
    pub(crate) fn pair_before(&self) -> Option<Pair>
        ensures { (p : Pair) → is_within self.now p.key ≡ true → is_above result p ≡ true }
    {
        match self.from {
            Bound::Included(from) => before_key(&from),
            Bound::Excluded(from) => Some(Pair {
                key: from,
                rid: LAST,
            }),
            Bound::Unbounded => None,
        }
    }

    /// A pair after all of the range; none where no pair can be after it. (That it is next to the end, no clause
    /// says.)
    pub(crate) fn pair_behind(&self) -> Option<Pair>
        ensures { (p : Pair) → is_within self.now p.key ≡ true → is_before result p ≡ true }
    {
        match self.to {
            Bound::Included(to) => behind_key(&to),
            Bound::Excluded(to) => Some(Pair {
                key: to,
                rid: FIRST,
            }),
            Bound::Unbounded => None,
        }
    }
}
