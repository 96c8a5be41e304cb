//! The calls of a seat that read the index in order. Each pushes what waits once, the records that the queue had
//! refused first; the queue may refuse them again, so no clause says so.
ghost use Rattle.std.specs.Prelude.{◌≡◌};
ghost use Rattle.std.specs.Option.{option_copied};
ghost use Rattle.core_scan.specs.Answered.{IsCountOf, IsPageOf};
ghost use Rattle.core_scan.specs.Backward.{IsPageBackOf};
ghost use Rattle.locked_core.specs.Locked.{locked_of};
ghost use Rattle.shared.specs.Scans.{WasSeen};

use crate::seat::Seat;
use crate::shared::Shared;
use core_scan::{KeyRange, Page};
use locked_core::{Group, Locked, Memory};
use records::{Error, Pair};
use std::alloc::Allocator;
use std::sync::{MutexGuard, Wait};
use threads_sessions::Keeping;

// The page of the core that lies here.
fn page_of<B: Group, A: Memory, M: Allocator>(
    alloc: M,
    locked: &Locked<B, A>,
    range: &KeyRange,
    after: Option<&Pair>,
    limit: usize,
) -> Result<Page<M>, Error>
    ensures { IsPageOf (locked_of locked.now).core.index.entries (locked_of locked.now).core.life range.now
        (option_copied after.entry) limit result }
{
    core_scan::scan(alloc, locked.core(), range, after, limit)
}

// The page backward of the core that lies here.
fn page_back_of<B: Group, A: Memory, M: Allocator>(
    alloc: M,
    locked: &Locked<B, A>,
    range: &KeyRange,
    before: Option<&Pair>,
    limit: usize,
) -> Result<Page<M>, Error>
    ensures { IsPageBackOf (locked_of locked.now).core.index.entries (locked_of locked.now).core.life range.now
        (option_copied before.entry) limit result }
{
    core_scan::scan_back(alloc, locked.core(), range, before, limit)
}

// The count of the core that lies here.
fn count_of<B: Group, A: Memory>(locked: &Locked<B, A>, range: &KeyRange) -> Result<u64, Error>
    ensures { IsCountOf (locked_of locked.now).core.index.entries (locked_of locked.now).core.life range.now result }
{
    core_scan::count(locked.core(), range)
}

impl<B: Group, A: Memory> Shared<B, A> {
    /// A page of the range: the first of its visible pairs behind this one, as many as `limit` at most, and the pair
    /// behind which to go on. It is that of a core that may lie under the lock, and has all that the seat's session
    /// tells: each commit, creation and dropping, and each row of an active transaction.
    ///
    /// A page is read in one hold of the lock, and the next one in another. Let the pages of a range have limits above
    /// 0, and be read one behind another until none is left. They are a `Reading` of the indexes of such cores. So the
    /// law `each_reading` of `core_scan` holds of them: no pair comes twice, each was visible at one of the pages, and
    /// none is missing that was visible at every page.
    ///
    /// The lock is held for as long as `scan` of `core_scan` takes: as many entries are looked at as lie between the
    /// page's pairs, marked ones too (no clause says so). The refusals are those of that call. What the queue had
    /// refused is pushed first (no clause says so).
    pub fn scan<R: Wait, K: Keeping, M: Allocator>(
        &self,
        rt: &R,
        alloc: M,
        seat: &mut Seat<B, A, K>,
        range: &KeyRange,
        after: Option<&Pair>,
        limit: usize,
    ) -> Result<Page<M>, Error>
        ensures page { ∥ WasSeen B.site.opened seat.old.number seat.old.session (λ core.
            IsPageOf core.index.entries core.life range.now (option_copied after.entry) limit result) ∥₁ }
        ensures seat { seat.new ≡ seat.old }
    {
        let mut guard = self.hold(rt);
        let locked = &mut *guard;
        locked.push_outbox(rt, &self.queue);
        locked.compare_seat(&self.registry, &mut seat.part);
        let page = page_of(alloc, locked, range, after, limit);
        MutexGuard::unlock(guard);
        page
    }

    /// A page of the range backward: the last of its visible pairs before this one, the last one first, as many as
    /// `limit` at most, and the pair before which to go on. It is that of a core as `scan` names it.
    ///
    /// A page is read in one hold of the lock, and the next one in another. Let the pages of a range have limits above
    /// 0, and be read one before another until none is left. They are a `ReadingBack` of the indexes of such cores. So
    /// the law `each_reading_back` of `core_scan` holds of them: no pair comes twice, each was visible at one of the
    /// pages, and none is missing that was visible at every page.
    ///
    /// How long the lock is held, the refusals, and what is pushed first are as with `scan`. Each entry is looked up
    /// by itself, down from the root.
    pub fn scan_back<R: Wait, K: Keeping, M: Allocator>(
        &self,
        rt: &R,
        alloc: M,
        seat: &mut Seat<B, A, K>,
        range: &KeyRange,
        before: Option<&Pair>,
        limit: usize,
    ) -> Result<Page<M>, Error>
        ensures page { ∥ WasSeen B.site.opened seat.old.number seat.old.session (λ core.
            IsPageBackOf core.index.entries core.life range.now (option_copied before.entry) limit result) ∥₁ }
        ensures seat { seat.new ≡ seat.old }
    {
        let mut guard = self.hold(rt);
        let locked = &mut *guard;
        locked.push_outbox(rt, &self.queue);
        locked.compare_seat(&self.registry, &mut seat.part);
        let page = page_back_of(alloc, locked, range, before, limit);
        MutexGuard::unlock(guard);
        page
    }

    /// How many visible pairs the range has, in a core that may lie under the lock. That core has all that the seat's
    /// session tells.
    ///
    /// The lock is held while every entry of the range is looked at (no clause says so). The refusals are those of
    /// `count` of `core_scan`. What the queue had refused is pushed first (no clause says so).
    pub fn count<R: Wait, K: Keeping>(
        &self,
        rt: &R,
        seat: &mut Seat<B, A, K>,
        range: &KeyRange,
    ) -> Result<u64, Error>
        ensures count { ∥ WasSeen B.site.opened seat.old.number seat.old.session (λ core.
            IsCountOf core.index.entries core.life range.now result) ∥₁ }
        ensures seat { seat.new ≡ seat.old }
    {
        let mut guard = self.hold(rt);
        let locked = &mut *guard;
        locked.push_outbox(rt, &self.queue);
        locked.compare_seat(&self.registry, &mut seat.part);
        let count = count_of(locked, range);
        MutexGuard::unlock(guard);
        count
    }
}
