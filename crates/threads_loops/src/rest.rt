//! How the loops sleep while there is nothing for them to do. No contract rests on it.
ghost use Rattle.std.specs.Prelude.{◌≡◌, false};

use board::{Bell, Waits};
use nsf_core::BuildReply;
use records::Error;
use std::sync::Wait;
use std::sync::atomic::{AtomicU64, Ordering};
use std::thread;
use std::time::Duration;

// The shortest and the longest sleep of a loop that found nothing to do, in microseconds.
const SHORTEST: u64 = 125;

const LONGEST: u64 = 48_000;

// So many rounds in which the flusher found nothing it looks again at once, and then sleeps.
const LOOKS: u32 = 16;

// So often the flusher looks behind a group whether records were made meanwhile, before it sleeps: more often where no
// seat slept for the group.
const RING_LOOKS: u32 = 400;

const RING_LOOKS_ALONE: u32 = 4_000;

// How many microseconds the flusher sleeps where nothing waits, at first, and how often that doubles; how many where an
// image is copied; and the builder where it leaves room for the others.
const FLUSHER_SLEEP: u64 = 1_000;

const DOUBLINGS: u32 = 6;

const COPY_PAUSE: u64 = 20;

const BUILD_PAUSE: u64 = 30;

// After so many steps the builder pauses.
const PAUSE_EVERY: u64 = 64;

// A record of the builder takes so many bytes beside its key.
const BUILT_BESIDE_KEY: u64 = 24;

// So many bytes of a group are the builder's, as it reckons: the rest is left to the seats. It waits where so many of
// its bytes are on their way to the device, a few groups, for so many microseconds at a time, and so often at most.
const BUILT_A_GROUP: u64 = 2_560;

const BUILT_AHEAD: u64 = 4 * BUILT_A_GROUP;

const GROUP_SLEEP: u64 = 250;

const GROUP_WAITS: u32 = 256;

// After so many steps that removed nothing the cleaner pauses, for so many microseconds.
const CLEAN_STEPS: u32 = 64;

const CLEAN_PAUSE: u64 = 500;

/// The sleeps of a loop that finds nothing to do, each longer than the one before, up to a limit.
#[derive(Clone, Copy)]
pub(crate) struct Rest {
    micros: u64,
}

impl Rest {
    /// The next sleep is the shortest.
    pub(crate) fn new() -> Rest {
        Rest { micros: SHORTEST }
    }

    /// Sleeps until the bell rings, or the sleep is over.
    pub(crate) fn sleep<R: Wait>(&mut self, rt: &R, bell: &Bell, rings: u64) {
        bell.sleep(rt, rings, Duration::from_micros(self.micros));
        self.micros = self.micros.saturating_mul(2).min(LONGEST);
    }
}

/// What the flusher found in a round. No contract rests on it.
#[derive(Clone, Copy)]
pub enum Found {
    /// There is more to write or to copy at once.
    More,
    /// A group was written, and nothing waits.
    Records,
    /// An image is under way.
    Image,
    /// Nothing.
    Nothing,
}

/// The sleep of the flusher behind a round, and how many rounds found nothing, with it.
pub(crate) fn rest_flusher<R: Wait>(
    rt: &R,
    waits: &Waits,
    rings: u64,
    found: Found,
    quiet: u32,
) -> u32 {
    let bell = &waits.pushed;
    match found {
        Found::More => 0,
        Found::Records => {
            await_ring(rt, waits, rings);
            0
        }
        Found::Image => {
            bell.sleep(rt, rings, Duration::from_micros(COPY_PAUSE));
            0
        }
        Found::Nothing => {
            if quiet < LOOKS {
                thread::yield_now();
            } else {
                let doublings = (quiet - LOOKS).min(DOUBLINGS);
                let micros = (FLUSHER_SLEEP << doublings).min(LONGEST);
                bell.sleep(rt, rings, Duration::from_micros(micros));
            }
            quiet.saturating_add(1)
        }
    }
}

// Looks a few times whether records were made, and then sleeps until they are.
fn await_ring<R: Wait>(rt: &R, waits: &Waits, rings: u64) {
    let times = if waits.published.has_sleepers() {
        RING_LOOKS
    } else {
        RING_LOOKS_ALONE
    };
    if !waits.pushed.look(rings, times) {
        waits
            .pushed
            .sleep(rt, rings, Duration::from_micros(FLUSHER_SLEEP));
    }
}

/// How the builder goes beside the others: how many steps it has made since it left them room, and how many bytes of
/// its records no group has taken yet, as it reckons by how often groups were published.
#[derive(Clone, Copy)]
pub(crate) struct Pace {
    steps: u64,
    ahead: u64,
    published: u64,
}

impl Pace {
    /// Nothing was made yet.
    pub(crate) fn new(waits: &Waits) -> Pace {
        Pace {
            steps: 0,
            ahead: 0,
            published: waits.published.rings(),
        }
    }

    /// One step more was made, with so many bytes of records. Where it made many since the last pause, it pauses, so
    /// that the seats get the lock. Where a few groups of its records wait for the flusher, it waits for that one.
    pub(crate) fn leave_room<R: Wait>(&mut self, rt: &R, waits: &Waits, rings: u64, bytes: u64) {
        self.ahead = self.ahead.saturating_add(bytes);
        self.steps = self.steps.saturating_add(1);
        if self.steps >= PAUSE_EVERY {
            waits
                .resting
                .sleep(rt, rings, Duration::from_micros(BUILD_PAUSE));
            self.steps = 0;
        }
        if self.ahead >= BUILT_AHEAD {
            waits.pushed.ring();
            self.await_flusher(rt, waits);
        }
    }

    // Waits until groups were published that took what is ahead. Where none is for long, it goes on as if all were. Who
    // writes may sleep until records are made, or beside leaders: so both bells ring.
    fn await_flusher<R: Wait>(&mut self, rt: &R, waits: &Waits) {
        for turn in 0..GROUP_WAITS {
            let rings = waits.published.rings();
            self.reckon(rings);
            if self.ahead < BUILT_AHEAD {
                return;
            }
            waits
                .published
                .sleep(rt, rings, Duration::from_micros(GROUP_SLEEP));
            if turn == 0 {
                waits.resting.ring();
            }
        }
        self.ahead = 0;
    }

    // Groups were published so often by now.
    fn reckon(&mut self, rings: u64) {
        let groups = rings.wrapping_sub(self.published);
        self.ahead = self
            .ahead
            .saturating_sub(groups.saturating_mul(BUILT_A_GROUP));
        self.published = rings;
    }
}

/// How many bytes of records a step of the builder made that was answered so, but for checkpoints, which are few. None
/// is counted outside a run, where there may be no flusher.
pub(crate) fn bytes_built(step: &Result<BuildReply, Error>, in_run: bool) -> u64 {
    match step {
        Ok(BuildReply::Placed(pair)) if in_run => {
            (pair.key.as_slice().len() as u64).saturating_add(BUILT_BESIDE_KEY)
        }
        Ok(_) | Err(_) => 0,
    }
}

/// A pause of the cleaner, where it has made so many steps since the last one. Answers how many it has made since then.
pub(crate) fn pause_cleaner<R: Wait>(rt: &R, bell: &Bell, rings: u64, steps: u32) -> u32 {
    let steps = steps.saturating_add(1);
    if steps < CLEAN_STEPS {
        return steps;
    }
    bell.sleep(rt, rings, Duration::from_micros(CLEAN_PAUSE));
    0
}

/// What the cleaner knows of its round through the index.
#[derive(Clone, Copy)]
pub(crate) struct Sweep {
    // How many records were made as the round began, if that is known.
    began: Option<u64>,
    // None was made in the round before: it took nothing out, and nothing has changed since.
    found_nothing: bool,
}

impl Sweep {
    /// Nothing is known.
    pub(crate) fn new() -> Sweep {
        Sweep {
            began: None,
            found_nothing: false,
        }
    }

    /// Whether a round found nothing to take out, and no record was made in it.
    pub(crate) fn found_nothing(&self) -> bool {
        self.found_nothing
    }

    /// Behind a round so many records are made by now. Whether some were since it began.
    pub(crate) fn go_round(&mut self, made: u64) -> bool {
        let some = self.began != Some(made);
        self.began = Some(made);
        self.found_nothing = !some;
        some
    }
}

/// Whether the run has ended that a loop is in, if it is in one.
pub(crate) fn has_ended(in_run: bool, ended: &AtomicU64) -> bool
    ensures { in_run ≡ false → result ≡ false }
{
    in_run && ended.load(Ordering::SeqCst) > 0
}
