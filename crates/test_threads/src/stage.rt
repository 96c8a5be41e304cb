//! Holding flusher and builder, each at a place, until something else was done.
use sector_device::{Device, Failed, SECTOR_SIZE};
use std::ops::Range;
use std::rt::Clock;
use std::sync::atomic::{AtomicBool, AtomicU64, Ordering};
use std::thread;
use std::time::Duration;
use threads_loops::{Gate, Point};

// How often a thread looks for something before it gives up.
const LOOKS: u32 = 100_000;

// How many microseconds it is from one look to the next.
const BETWEEN_LOOKS: u64 = 20;

/// A place of a loop.
#[derive(Clone, Copy)]
pub enum Place {
    /// Within a write to the device.
    Write,
    /// Within a sync of the device.
    Sync,
    /// Within a sync that a seat makes, and not the flusher's thread.
    LeaderSync,
    At(Point),
}

/// The place of a loop where its thread is held the first time that it comes by, until it is let go.
#[derive(Drop)]
pub struct Hold {
    place: Place,
    held: AtomicBool,
    let_go: AtomicBool,
}

impl Hold {
    fn new(place: Place) -> Hold {
        Hold {
            place,
            held: AtomicBool::new(false),
            let_go: AtomicBool::new(false),
        }
    }

    /// Whether a thread is to be held at this point.
    pub fn is_at(&self, point: Point) -> bool {
        match self.place {
            Place::At(at) => at == point,
            _ => false,
        }
    }

    // Whether a thread is to be held within a write.
    fn is_in_write(&self) -> bool {
        matches!(self.place, Place::Write)
    }

    // Whether a thread is to be held within a sync, of the flusher's thread or of another.
    fn is_in_sync(&self, by_flusher: bool) -> bool {
        match self.place {
            Place::Sync => true,
            Place::LeaderSync => !by_flusher,
            _ => false,
        }
    }

    /// Whether a thread was held.
    pub fn holds(&self) -> bool {
        self.held.load(Ordering::SeqCst)
    }

    pub fn let_go(&self) {
        self.let_go.store(true, Ordering::SeqCst);
    }
}

/// Where flusher and builder are held, once they are to be; how many steps the cleaner has begun; whether the flusher's
/// thread is flushing, and how many groups it has flushed before the first chunk of an image. Whether the writers may
/// begin, and how many have ended.
#[derive(Drop)]
pub struct Stage<'a, R> {
    rt: &'a R,
    pub flusher: Hold,
    pub builder: Hold,
    armed: AtomicBool,
    late: AtomicBool,
    cleaned: AtomicU64,
    flushing: AtomicBool,
    groups: AtomicU64,
    copied: AtomicBool,
    begun: AtomicBool,
    ended: AtomicU64,
}

impl<'a, R: Clock> Stage<'a, R> {
    pub fn new(rt: &'a R, flusher: Place, builder: Place) -> Stage<'a, R> {
        Stage {
            rt,
            flusher: Hold::new(flusher),
            builder: Hold::new(builder),
            armed: AtomicBool::new(false),
            late: AtomicBool::new(false),
            cleaned: AtomicU64::new(0),
            flushing: AtomicBool::new(false),
            groups: AtomicU64::new(0),
            copied: AtomicBool::new(false),
            begun: AtomicBool::new(false),
            ended: AtomicU64::new(0),
        }
    }

    /// A number for each look that a thread may take.
    pub fn looks(&self) -> Range<u32> {
        0..LOOKS
    }

    /// A thread looked for something in vain.
    pub fn is_too_late(&self) {
        self.late.store(true, Ordering::SeqCst);
    }

    /// The writers may begin.
    pub fn begins_writing(&self) {
        self.begun.store(true, Ordering::SeqCst);
    }

    /// A writer has ended.
    pub fn ends_writing(&self) {
        self.ended.fetch_add(1, Ordering::SeqCst);
    }

    /// How many groups were flushed before the first chunk of an image was to be copied.
    pub fn groups(&self) -> u64 {
        self.groups.load(Ordering::SeqCst)
    }

    /// From now on the loops are held.
    pub fn arm(&self) {
        self.armed.store(true, Ordering::SeqCst);
    }

    /// Whether both loops were held.
    pub fn holds(&self) -> bool {
        self.flusher.holds() && self.builder.holds()
    }

    /// Whether a thread looked for something in vain.
    pub fn is_late(&self) -> bool {
        self.late.load(Ordering::SeqCst)
    }

    /// Rests between two looks.
    pub fn rest(&self) {
        thread::sleep(self.rt, Duration::from_micros(BETWEEN_LOOKS));
    }

    // Looks until the flag is set.
    fn look(&self, flag: &AtomicBool) {
        for _ in self.looks() {
            if flag.load(Ordering::SeqCst) {
                return;
            }
            self.rest();
        }
        self.is_too_late();
    }

    // Holds a thread that comes by the place of a loop, where it is the first one.
    fn pass(&self, hold: &Hold, is_there: bool) {
        let armed = self.armed.load(Ordering::SeqCst);
        if armed && is_there && !hold.held.swap(true, Ordering::SeqCst) {
            self.look(&hold.let_go);
        }
    }

    /// Looks until the writers may begin.
    pub fn await_writing(&self) {
        self.look(&self.begun);
    }

    /// Looks until both loops are held.
    pub fn await_held(&self) {
        self.look(&self.flusher.held);
        self.look(&self.builder.held);
    }

    // Looks until so many were counted.
    fn look_at(&self, count: &AtomicU64, wanted: u64) {
        for _ in self.looks() {
            if count.load(Ordering::SeqCst) >= wanted {
                return;
            }
            self.rest();
        }
        self.is_too_late();
    }

    /// Looks until the cleaner has begun so many steps more.
    pub fn await_cleaner(&self, steps: u64) {
        let begun = self.cleaned.load(Ordering::SeqCst);
        self.look_at(&self.cleaned, begun.saturating_add(steps));
    }

    /// Looks until so many writers have ended.
    pub fn await_writers(&self, writers: u64) {
        self.look_at(&self.ended, writers);
    }
}

impl<R> Stage<'_, R> {
    // The flusher's thread has flushed a group, or found that none is to be flushed.
    fn ends_group(&self) {
        self.flushing.store(false, Ordering::SeqCst);
        if !self.copied.load(Ordering::SeqCst) {
            self.groups.fetch_add(1, Ordering::SeqCst);
        }
    }
}

impl<R: Clock> Gate for Stage<'_, R> {
    fn at(&self, point: Point) {
        match point {
            Point::CleanStep => {
                self.cleaned.fetch_add(1, Ordering::SeqCst);
            }
            Point::FlushSync => self.flushing.store(true, Ordering::SeqCst),
            Point::FlushGate => self.ends_group(),
            Point::CopyStep => self.copied.store(true, Ordering::SeqCst),
            _ => {}
        }
        self.pass(&self.flusher, self.flusher.is_at(point));
        self.pass(&self.builder, self.builder.is_at(point));
    }
}

/// A disk that holds the flusher, or a leader, within a write or a sync, where it is to be held there.
#[derive(Drop)]
pub struct HeldDisk<'a, D, R> {
    pub disk: D,
    pub stage: &'a Stage<'a, R>,
}

impl<D: Device, R: Clock> Device for HeldDisk<'_, D, R> {
    ghost past_of = { λ d. D.past_of d.disk };

    ghost failures = { λ d. D.failures d.disk };

    fn sectors(&self) -> u64 {
        self.disk.sectors()
    }

    fn read(&mut self, n: u64, buffer: &mut [u8; SECTOR_SIZE]) -> Result<(), Failed> {
        self.disk.read(n, buffer)
    }

    fn write(&mut self, n: u64, bytes: &[u8; SECTOR_SIZE]) -> Result<(), Failed> {
        let flusher = &self.stage.flusher;
        self.stage.pass(flusher, flusher.is_in_write());
        self.disk.write(n, bytes)
    }

    fn sync(&mut self) -> Result<(), Failed> {
        let flusher = &self.stage.flusher;
        let by_flusher = self.stage.flushing.load(Ordering::SeqCst);
        self.stage.pass(flusher, flusher.is_in_sync(by_flusher));
        self.disk.sync()
    }
}
