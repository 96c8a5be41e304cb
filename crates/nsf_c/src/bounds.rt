//! A range of keys, as C asks for it, and the pair from which to go on.
ghost use Rattle.std.specs.Prelude.{◌≡◌, ◌⊎◌, ◌<◌, ◌≤◌, ℕ, IfOk, IfErr, OnOk};
ghost use Rattle.nsf_c.specs.Scans.{IsFine, IsGivenPair, IsBound, IsFlag, IsNoBound, IsNoPair, IsNoRange, IsNoScan};
ghost use Rattle.nsf_c.specs.Scans.{IsNoScanBack};

use crate::asked::{key_of, rid_of};
use crate::kind::NO_SUCH_EVENT;
use core_scan::KeyRange;
use records::{Key, Pair};
use std::ops::Bound;

/// Which pair is asked for, but for the bytes of keys: how the range begins (0 with the first key, 1 with the key that
/// is given, 2 behind it) and ends (0, 1, 2: the last key, that one, before it); whether the pair behind a given one,
/// or before it, is asked for (0 or 1), and its place; and whether the index is read as is committed (1) or as it
/// stands (0).
#[repr(C)]
pub struct Bounds {
    pub from: u32,
    pub to: u32,
    pub goes_on: u32,
    pub committed: u32,
    pub page: u32,
    pub slot: u16,
}

/// A pair that is asked for: the first of the range behind another one.
#[derive(Clone, Copy)]
pub(crate) struct Sought {
    pub range: KeyRange,
    pub after: Option<Pair>,
    pub is_committed: bool,
}

/// A pair that is asked for backward: the last of the range before another one.
#[derive(Clone, Copy)]
pub(crate) struct SoughtBack {
    pub range: KeyRange,
    pub before: Option<Pair>,
}

fn bound_of(kind: u32, key: &[u8]) -> Result<Bound<Key>, u32>
    ensures ok { IfOk result (IsBound kind key.now) }
    ensures fine { OnOk result (IsFine (IsNoBound kind key.now)) }
    ensures bad { IfErr result (IsNoBound kind key.now) }
{
    match kind {
        0 => Ok(Bound::Unbounded),
        1 => Ok(Bound::Included(key_of(key)?)),
        2 => Ok(Bound::Excluded(key_of(key)?)),
        _ => Err(NO_SUCH_EVENT),
    }
}

// Whether one of two is asked for, and the other isn't.
fn flag_of(number: u32) -> Result<bool, u32>
    ensures ok { IfOk result (IsFlag number) }
    ensures bad { IfErr result (λ n. (n ≡ 24) × (1 < number)) }
{
    match number {
        0 => Ok(false),
        1 => Ok(true),
        _ => Err(NO_SUCH_EVENT),
    }
}

impl Bounds {
    fn after(&self, key: &[u8]) -> Result<Option<Pair>, u32>
        ensures ok { IfOk result (IsGivenPair self.now key.now) }
        ensures fine { OnOk result (IsFine (IsNoPair self.now key.now)) }
        ensures bad { IfErr result (IsNoPair self.now key.now) }
    {
        if !flag_of(self.goes_on)? {
            return Ok(None);
        }
        Ok(Some(Pair {
            key: key_of(key)?,
            rid: rid_of(self.page, self.slot)?,
        }))
    }

    fn range(&self, from: &[u8], to: &[u8]) -> Result<KeyRange, u32>
        ensures begins { IfOk result (λ range. IsBound self.now.from from.now range.from) }
        ensures ends { IfOk result (λ range. IsBound self.now.to to.now range.to) }
        ensures fine_from { OnOk result (IsFine (IsNoBound self.now.from from.now)) }
        ensures fine_to { OnOk result (IsFine (IsNoBound self.now.to to.now)) }
        ensures bad { IfErr result (λ n. IsNoBound self.now.from from.now n
            ⊎ (IsNoBound self.now.to to.now n × IsFine (IsNoBound self.now.from from.now))) }
    {
        let (from, to) = (bound_of(self.from, from)?, bound_of(self.to, to)?);
        Ok(KeyRange { from, to })
    }

    // The range, and the pair from which to go on.
    fn range_and_pair(
        &self,
        from: &[u8],
        to: &[u8],
        given: &[u8],
    ) -> Result<(KeyRange, Option<Pair>), u32>
        ensures begins { IfOk result (λ it. IsBound self.now.from from.now it.0.from) }
        ensures ends { IfOk result (λ it. IsBound self.now.to to.now it.0.to) }
        ensures given { IfOk result (λ it. IsGivenPair self.now given.now it.1) }
        ensures fine { OnOk result (IsFine (IsNoRange self.now from.now to.now given.now)) }
        ensures bad { IfErr result (IsNoRange self.now from.now to.now given.now) }
    {
        let range = self.range(from, to)?;
        let pair = self.after(given)?;
        Ok((range, pair))
    }

    /// What is asked for, with these keys. The error is the number of the refusal: 24 where a number is none of those
    /// that it may be, 14 for a key that is too long, 10 for a slot that is on no page. Of several it is that of the
    /// first: where the range begins, where it ends, the pair, and the index that is read.
    pub(crate) fn sought(&self, from: &[u8], to: &[u8], behind: &[u8]) -> Result<Sought, u32>
        ensures begins { IfOk result (λ sought. IsBound self.now.from from.now sought.range.from) }
        ensures ends { IfOk result (λ sought. IsBound self.now.to to.now sought.range.to) }
        ensures behind { IfOk result (λ sought. IsGivenPair self.now behind.now sought.after) }
        ensures committed { IfOk result (λ sought. IsFlag self.now.committed sought.is_committed) }
        ensures bad { IfErr result (IsNoScan self.now from.now to.now behind.now) }
    {
        let (range, after) = self.range_and_pair(from, to, behind)?;
        let is_committed = flag_of(self.committed)?;
        Ok(Sought {
            range,
            after,
            is_committed,
        })
    }

    /// What is asked for backward, with these keys. The errors are those of `sought`, and 24 also where the index is
    /// to be read as is committed.
    pub(crate) fn sought_back(
        &self,
        from: &[u8],
        to: &[u8],
        ahead: &[u8],
    ) -> Result<SoughtBack, u32>
        ensures begins { IfOk result (λ sought. IsBound self.now.from from.now sought.range.from) }
        ensures ends { IfOk result (λ sought. IsBound self.now.to to.now sought.range.to) }
        ensures ahead { IfOk result (λ sought. IsGivenPair self.now ahead.now sought.before) }
        ensures uncommitted { IfOk result (λ sought. self.now.committed ≡ 0) }
        ensures bad { IfErr result (IsNoScanBack self.now from.now to.now ahead.now) }
    {
        let (range, before) = self.range_and_pair(from, to, ahead)?;
        if self.committed != 0 {
            return Err(NO_SUCH_EVENT);
        }
        Ok(SoughtBack { range, before })
    }
}
