//! What the threads share.
ghost use Rattle.std.specs.Prelude.{◌≡◌};
ghost use Rattle.threads_queue.specs.Ends.{name_prop};

use crate::builder::BuildPart;
use crate::cleaner::CleanPart;
use crate::quiet::Quiet;
use board::Board;
use locked_core::{Group, Locked, Memory};
use sector_device::Device;
use std::alloc::Global;
use std::marker::PhantomData;
use std::sync::{Mutex, MutexGuard, Wait};
use std::{hint, thread};
use threads_flusher::FlushPart;
use threads_queue::RecordQueue;
use threads_sessions::Registry;

// So often it is looked whether the lock is free before a sleep, and so often between two times that the processor is
// left to others.
const LOCK_LOOKS: u32 = 400;

const LOOKS_A_YIELD: u32 = 40;

// So often the builder and the cleaner look whether those that go first have the lock.
const LOOKS_BEHIND_OTHERS: u32 = 20;

/// A core that several threads share by a `&`, each with its seat.
#[derive(Drop)]
pub struct Shared<B: Group, A: Memory = Global> {
    pub(crate) locked: Mutex<Locked<B, A>>,
    pub(crate) queue: RecordQueue<A>,
    pub(crate) registry: Registry<A>,
    pub(crate) board: Board<A>,
    pub(crate) quiet: Quiet,
    pub(crate) site: PhantomData<B>,
    ghost queue_is: { queue ≡ B.site.queue } by { name_prop queue B.site.queue },
    ghost registry_is: { registry ≡ B.site.table },
    ghost board_is: { board ≡ B.site.board },
}

impl<B: Group, A: Memory> Shared<B, A> {
    /// The queue of records to the flusher.
    pub fn queue(&self) -> &RecordQueue<A>
        ensures { result.now ≡ B.site.queue }
    {
        &self.queue
    }

    /// The board.
    pub fn board(&self) -> &Board<A>
        ensures { result.now ≡ B.site.board }
    {
        &self.board
    }

    /// Takes the lock for the flusher, as its part shows, before the builder and the cleaner.
    pub fn hold_to_flush<D: Device, R: Wait>(
        &self,
        rt: &R,
        _part: &FlushPart<B, D, A>,
    ) -> MutexGuard<'_, Locked<B, A>> {
        self.hold(rt)
    }

    /// Takes the lock for the builder, as its part shows. For a short while seats and the flusher go first.
    pub fn hold_to_build<R: Wait>(
        &self,
        rt: &R,
        _part: &BuildPart<B>,
    ) -> MutexGuard<'_, Locked<B, A>> {
        self.hold_last(rt)
    }

    /// Takes the lock for the cleaner, as its part shows. For a short while seats and the flusher go first.
    pub fn hold_to_clean<R: Wait>(
        &self,
        rt: &R,
        _part: &CleanPart<B>,
    ) -> MutexGuard<'_, Locked<B, A>> {
        self.hold_last(rt)
    }

    // Takes the lock for a seat or for the flusher, before the builder and the cleaner. One that is free is just taken.
    pub(crate) fn hold<R: Wait>(&self, rt: &R) -> MutexGuard<'_, Locked<B, A>> {
        if let Some(guard) = self.locked.try_lock() {
            return guard;
        }
        let waits = self.board.waits();
        waits.wants_lock();
        let guard = self.seize(rt);
        waits.has_lock();
        guard
    }

    // Takes the lock for the builder or the cleaner: for a short while seats and the flusher go first.
    fn hold_last<R: Wait>(&self, rt: &R) -> MutexGuard<'_, Locked<B, A>> {
        let waits = self.board.waits();
        for _ in 0..LOOKS_BEHIND_OTHERS {
            if !waits.is_lock_wanted() {
                break;
            }
            hint::spin_loop();
        }
        self.seize(rt)
    }

    // The lock, without a sleep where it is free soon: one that is left to a thread that sleeps keeps all others
    // waiting until that one is awake.
    fn seize<R: Wait>(&self, rt: &R) -> MutexGuard<'_, Locked<B, A>> {
        for look in 0..LOCK_LOOKS {
            if let Some(guard) = self.locked.try_lock() {
                return guard;
            }
            if look % LOOKS_A_YIELD == 0 {
                thread::yield_now();
            } else {
                hint::spin_loop();
            }
        }
        self.locked.lock(rt)
    }

    // Wakes the flusher, for which records may wait.
    pub(crate) fn ring_flusher(&self) {
        self.board.waits().pushed.ring();
    }

    // Wakes the flusher, and who waits until no transaction is active: one may have ended.
    pub(crate) fn wake_flusher(&self) {
        self.ring_flusher();
        self.quiet.look_again();
    }

    /// What lay under the lock, the queue, the registry of the sessions and the board, in one hand.
    pub fn into_parts(self) -> (Locked<B, A>, RecordQueue<A>, Registry<A>, Board<A>)
        ensures queue { result.1 ≡ B.site.queue }
        ensures registry { result.2 ≡ B.site.table }
        ensures board { result.3 ≡ B.site.board }
    {
        let Shared {
            locked,
            queue,
            registry,
            board,
            quiet: _,
            site: _,
        } = self;
        (locked.into_inner(), queue, registry, board)
    }
}
