//! What threads sleep on while there is nothing for them to do.
//!
//! No contract rests on any of it: a sleep ends by itself after a time that its caller names, and a thread that wakes
//! up looks again at what it waits for.
use std::hint;
use std::sync::Wait;
use std::sync::atomic::{AtomicU64, Ordering};
use std::time::Duration;

// With its three words a bell takes two lines of a processor's memory.
const ROOM: usize = 13;

/// Wakes the threads that sleep until it rings.
#[derive(Drop)]
pub struct Bell {
    rings: AtomicU64,
    sleepers: AtomicU64,
    // How many threads look at it for longer.
    lookers: AtomicU64,
    // So that no two bells lie in one line.
    room: [u64; ROOM],
}

impl Bell {
    const fn new() -> Bell {
        Bell {
            rings: AtomicU64::new(0),
            sleepers: AtomicU64::new(0),
            lookers: AtomicU64::new(0),
            room: [0; ROOM],
        }
    }

    /// How often it has rung. It is read before a thread looks at what it waits for, and given to `sleep` behind that.
    pub fn rings(&self) -> u64 {
        self.rings.load(Ordering::SeqCst)
    }

    /// Rings, and wakes all that sleep on it.
    pub fn ring(&self) {
        self.rings.fetch_add(1, Ordering::SeqCst);
        if self.has_sleepers() {
            self.rings.wake_all();
        }
    }

    /// Whether some thread sleeps on it.
    pub fn has_sleepers(&self) -> bool {
        self.sleepers.load(Ordering::SeqCst) > 0
    }

    /// Looks so often whether it rings, where no other thread does, and says whether it has: a short wait costs less so
    /// than by a sleep, but one processor at most is to be kept busy by it.
    pub fn look(&self, rings: u64, times: u32) -> bool {
        let is_first = self.lookers.fetch_add(1, Ordering::SeqCst) == 0;
        let times = if is_first { times } else { 1 };
        for _ in 0..times {
            if self.rings() != rings {
                break;
            }
            hint::spin_loop();
        }
        self.lookers.fetch_sub(1, Ordering::SeqCst);
        self.rings() != rings
    }

    /// Sleeps until it rings, and no longer than the limit. It returns at once where it has rung since it was read.
    pub fn sleep<R: Wait>(&self, rt: &R, rings: u64, limit: Duration) {
        self.sleepers.fetch_add(1, Ordering::SeqCst);
        self.rings
            .park_timeout(rt, (rings & 0xffff_ffff) as u32, limit);
        self.sleepers.fetch_sub(1, Ordering::SeqCst);
    }
}

/// The bells of those who share a board, and how the builder leaves room for the others.
#[derive(Drop)]
pub struct Waits {
    /// Rings where the horizon rose, where the device failed, and where all are to stop.
    pub published: Bell,
    /// Rings where records were made, and where all are to stop.
    pub pushed: Bell,
    /// Rings where there is something to build, and where all are to stop.
    pub resting: Bell,
    // How many threads want the lock, that others wait for, and don't have it yet.
    wanting: AtomicU64,
}

impl Waits {
    pub(crate) const fn new() -> Waits {
        Waits {
            published: Bell::new(),
            pushed: Bell::new(),
            resting: Bell::new(),
            wanting: AtomicU64::new(0),
        }
    }

    /// Rings all bells.
    pub fn ring_all(&self) {
        self.published.ring();
        self.pushed.ring();
        self.resting.ring();
    }

    /// Says that a seat, or the flusher, wants the lock. `has_lock` follows once it has it.
    pub fn wants_lock(&self) {
        self.wanting.fetch_add(1, Ordering::SeqCst);
    }

    /// Says that who wanted the lock has it.
    pub fn has_lock(&self) {
        self.wanting.fetch_sub(1, Ordering::SeqCst);
    }

    /// Whether a seat or the flusher wants the lock: the builder and the cleaner let it go first.
    pub fn is_lock_wanted(&self) -> bool {
        self.wanting.load(Ordering::SeqCst) > 0
    }
}
