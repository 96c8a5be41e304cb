//! The call of a seat that counts.
ghost use Rattle.std.specs.Prelude.{◌≡◌};
ghost use Rattle.locked_core.specs.Locked.{locked_of};
ghost use Rattle.nsf_core.specs.Counts.{AreCounts};
ghost use Rattle.shared.specs.Scans.{WasSeen};

use crate::seat::Seat;
use crate::shared::Shared;
use locked_core::{Group, Locked, Memory};
use nsf_core::Counts;
use std::sync::{MutexGuard, Wait};
use threads_sessions::Keeping;

// How many rows and entries the core has that lies here.
fn counts_of<B: Group, A: Memory>(locked: &Locked<B, A>) -> Counts
    ensures { AreCounts (locked_of locked.now).core result }
{
    locked.core().counts()
}

impl<B: Group, A: Memory> Shared<B, A> {
    /// How many rows and entries there are, committed or not, in a core that may lie under the lock and has all that
    /// the seat's session tells.
    ///
    /// What the queue had refused is pushed first (no clause says so).
    pub fn counts<R: Wait, K: Keeping>(&self, rt: &R, seat: &mut Seat<B, A, K>) -> Counts
        ensures counts { ∥ WasSeen B.site.opened seat.old.number seat.old.session (λ core.
            AreCounts core result) ∥₁ }
        ensures seat { seat.new ≡ seat.old }
    {
        let mut guard = self.hold(rt);
        let locked = &mut *guard;
        locked.push_outbox(rt, &self.queue);
        locked.compare_seat(&self.registry, &mut seat.part);
        let counts = counts_of(locked);
        MutexGuard::unlock(guard);
        counts
    }
}
