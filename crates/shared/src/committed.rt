//! The calls of a seat that read what is committed. Each pushes what waits once, the records that the queue had refused
//! first; the queue may refuse them again, so no clause says so.
ghost use Rattle.std.specs.Prelude.{◌≡◌};
ghost use Rattle.std.specs.FinMap as map;
ghost use Rattle.std.specs.Option.{option_copied};
ghost use Rattle.core_laws.specs.Holds.{committed_rows};
ghost use Rattle.core_scan.specs.Answered.{IsPageOf};
ghost use Rattle.core_committed.specs.Committed.{ArePlacesOf, committed_index};
ghost use Rattle.locked_core.specs.Locked.{locked_of};
ghost use Rattle.shared.specs.Scans.{WasSeen};

use crate::seat::Seat;
use crate::shared::Shared;
use core_scan::{KeyRange, Page};
use locked_core::{Group, Locked, Memory};
use records::{Error, Key, Pair, Rid, Row};
use std::alloc::Allocator;
use std::sync::{MutexGuard, Wait};
use threads_sessions::Keeping;

// The committed row of the core that lies here.
fn row_of<B: Group, A: Memory>(locked: &Locked<B, A>, rid: Rid) -> Option<Row>
    ensures { result ≡ map.get (committed_rows (locked_of locked.now).core) rid }
{
    core_committed::get_committed(locked.core(), rid)
}

// The committed places of the key in the core that lies here.
fn places_of<B: Group, A: Memory, M: Allocator>(
    alloc: M,
    locked: &Locked<B, A>,
    key: Key,
) -> Result<Vec<Rid, M>, Error>
    ensures { ArePlacesOf (locked_of locked.now).core key result }
{
    core_committed::find_committed(alloc, locked.core(), key)
}

// The page of what is committed of the core that lies here.
fn committed_page_of<B: Group, A: Memory, M: Allocator>(
    alloc: M,
    locked: &Locked<B, A>,
    range: &KeyRange,
    after: Option<&Pair>,
    limit: usize,
) -> Result<Page<M>, Error>
    ensures { IsPageOf (committed_index (locked_of locked.now).core) (locked_of locked.now).core.life range.now
        (option_copied after.entry) limit result }
{
    core_committed::scan_committed(alloc, locked.core(), range, after, limit)
}

impl<B: Group, A: Memory> Shared<B, A> {
    /// The committed row of the place, in a core that may lie under the lock and has all that the seat's session tells:
    /// what the commits of all seats up to one moment leave there. A row of an active transaction isn't there, of this
    /// seat neither.
    ///
    /// What the queue had refused is pushed first (no clause says so).
    pub fn get_committed<R: Wait, K: Keeping>(
        &self,
        rt: &R,
        seat: &mut Seat<B, A, K>,
        rid: Rid,
    ) -> Option<Row>
        ensures row { ∥ WasSeen B.site.opened seat.old.number seat.old.session (λ core.
            result ≡ map.get (committed_rows core) rid) ∥₁ }
        ensures seat { seat.new ≡ seat.old }
    {
        let mut guard = self.hold(rt);
        let locked = &mut *guard;
        locked.push_outbox(rt, &self.queue);
        locked.compare_seat(&self.registry, &mut seat.part);
        let row = row_of(locked, rid);
        MutexGuard::unlock(guard);
        row
    }

    /// The places of the committed rows with this key, in such a core.
    ///
    /// The refusals are those of `find_committed` of `core_committed`: `NoIndex`, then `NotBuilt` while the index is
    /// built, and `NoMemory`. What the queue had refused is pushed first (no clause says so).
    pub fn find_committed<R: Wait, K: Keeping, M: Allocator>(
        &self,
        rt: &R,
        alloc: M,
        seat: &mut Seat<B, A, K>,
        key: Key,
    ) -> Result<Vec<Rid, M>, Error>
        ensures found { ∥ WasSeen B.site.opened seat.old.number seat.old.session (λ core.
            ArePlacesOf core key result) ∥₁ }
        ensures seat { seat.new ≡ seat.old }
    {
        let mut guard = self.hold(rt);
        let locked = &mut *guard;
        locked.push_outbox(rt, &self.queue);
        locked.compare_seat(&self.registry, &mut seat.part);
        let found = places_of(alloc, locked, key);
        MutexGuard::unlock(guard);
        found
    }

    /// A page of the range: the first of its committed pairs behind this one, as many as `limit` at most, and the pair
    /// behind which to go on. It is that of such a core. The next page is read in another hold of the lock; `scan` says
    /// what pages have together.
    ///
    /// The lock is held for as long as `scan_committed` of `core_committed` takes (no clause says so). The refusals are
    /// those of that call. What the queue had refused is pushed first (no clause says so).
    pub fn scan_committed<R: Wait, K: Keeping, M: Allocator>(
        &self,
        rt: &R,
        alloc: M,
        seat: &mut Seat<B, A, K>,
        range: &KeyRange,
        after: Option<&Pair>,
        limit: usize,
    ) -> Result<Page<M>, Error>
        ensures page { ∥ WasSeen B.site.opened seat.old.number seat.old.session (λ core.
            IsPageOf (committed_index core) core.life range.now (option_copied after.entry) limit result) ∥₁ }
        ensures seat { seat.new ≡ seat.old }
    {
        let mut guard = self.hold(rt);
        let locked = &mut *guard;
        locked.push_outbox(rt, &self.queue);
        locked.compare_seat(&self.registry, &mut seat.part);
        let page = committed_page_of(alloc, locked, range, after, limit);
        MutexGuard::unlock(guard);
        page
    }
}
