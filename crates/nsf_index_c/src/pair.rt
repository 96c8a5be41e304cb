//! Pairs, cursors and changes, as C has them.
ghost use Rattle.std.specs.Prelude.{◌≡◌, ◌≤◌, IfNone, IfOk, IfSome, OnErr, length};
ghost use Rattle.std.specs.Option.{option_copied};
ghost use Rattle.nsf_index_c.specs.Pairs.{IsAfter, IsNoCursor, IsNoPair, IsPair, moved, padded, state_of, told};

use record_values::{KEY_MAX, Key, Mark, Pair, Rid, SLOTS_PER_PAGE};

/// A pair: the place of a row, and the key that it has. Where a call tells an entry, `state` is what the entry is; no
/// call looks at it.
#[repr(C)]
#[derive(Clone, Copy)]
pub struct PairOfC {
    pub page: u32,
    pub slot: u16,
    pub length: u8,
    pub state: u8,
    pub key: [u8; KEY_MAX],
}

/// Where a call that goes over the entries begins: at the first one (`goes_on` is 0), or after a pair.
#[repr(C)]
#[derive(Clone, Copy)]
pub struct Cursor {
    pub goes_on: u32,
    pub pair: PairOfC,
}

/// A change of a row, or what is to be done with a pair.
#[repr(C)]
#[derive(Clone, Copy)]
pub struct ChangeOfC {
    pub kind: u32,
    pub old_pair: PairOfC,
    pub new_pair: PairOfC,
}

const NONE: u8 = 0;

const VISIBLE: u8 = 1;

const MARKED: u8 = 2;

/// What an entry is, as C is told it.
pub(crate) fn state_of(mark: Option<Mark>) -> u8
    ensures { result ≡ state_of mark }
{
    match mark {
        None => NONE,
        Some(Mark::Live) => VISIBLE,
        Some(Mark::Marked) => MARKED,
    }
}

impl PairOfC {
    /// The pair, if it is one: a key has at most 56 bytes, and a page has 63 slots.
    pub(crate) fn pair(&self) -> Option<Pair>
        ensures some { IfSome result (IsPair self.now) }
        ensures none { IfNone result (IsNoPair self.now) }
    {
        if self.length as usize > KEY_MAX || self.slot >= SLOTS_PER_PAGE {
            return None;
        }
        let Ok(key) = Key::new(&self.key[..self.length as usize]) else {
            return None;
        };
        let rid = Rid {
            page: self.page,
            slot: self.slot,
        };
        Some(Pair { key, rid })
    }
}

// The bytes, and zeros after them.
fn padded(bytes: &[u8]) -> [u8; KEY_MAX]
    requires { length bytes.now ≤ KEY_MAX }
    ensures { result ≡ padded bytes.now }
{
    let mut key = [0; KEY_MAX];
    key[..bytes.len()].copy_from_slice(bytes);
    key
}

/// The pair for C, with the state of its entry.
pub(crate) fn told(pair: &Pair, mark: Option<Mark>) -> PairOfC
    ensures { result ≡ told pair.now mark }
{
    let bytes = pair.key.as_slice();
    PairOfC {
        page: pair.rid.page,
        slot: pair.rid.slot,
        length: bytes.len() as u8,
        state: state_of(mark),
        key: padded(bytes),
    }
}

impl Cursor {
    /// The pair after which a call begins, or none where it begins at the first entry. The error is a pair that is
    /// none.
    pub(crate) fn above(&self) -> Result<Option<Pair>, ()>
        ensures ok { IfOk result (IsAfter self.now) }
        ensures bad { OnErr result (IsNoCursor self.now) }
    {
        if self.goes_on == 0 {
            return Ok(None);
        }
        match self.pair.pair() {
            Some(pair) => Ok(Some(pair)),
            None => Err(()),
        }
    }

    /// The cursor is after this pair now; where there is none it stays.
    pub(crate) fn go_after(&mut self, pair: Option<&Pair>)
        ensures { self.new ≡ moved self.old (option_copied pair.entry) }
    {
        if let Some(pair) = pair {
            *self = Cursor {
                goes_on: 1,
                pair: told(pair, None),
            };
        }
    }
}
