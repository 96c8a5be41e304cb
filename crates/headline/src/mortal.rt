//! Devices that stop.
ghost use Rattle.std.specs.Prelude.{◌≡◌, ◌≤◌, ℕ};
ghost use Rattle.headline.specs.Stops.{HasStopped, IsFoundAs};

use sector_device::{Device, Fate, MemDisk};
use std::alloc::Allocator;

/// A device that may stop, as its power fails or the process that has it ends, and is found again. It keeps its count
/// of failures.
pub trait Mortal: Device + Drop {
    /// Marks the moment that it is.
    fn mark(&self) -> u64
        ensures { Self.marks result (Self.past_of self.now).moment };

    /// It stops where it is, and is found as any crash of now may have left it. Its moments count anew.
    fn stop_now(&mut self)
        ensures found { IsFoundAs (Self.past_of self.old).disk (Self.past_of self.new) }
        ensures failures { Self.failures self.new ≡ Self.failures self.old };

    /// It stopped at one of its moments since the marked one, and is found likewise: what was done later never came to
    /// it.
    fn stop(&mut self, since: u64)
        ensures stopped { (moment : ℕ) → Self.marks since moment → moment ≤ (Self.past_of self.old).moment
            → HasStopped moment (Self.past_of self.old) (Self.past_of self.new) }
        ensures failures { Self.failures self.new ≡ Self.failures self.old };
}

/// What becomes in turn of the sectors of a disk in memory that are unsynced as it stops.
const FATES: [Fate; 5] = [Fate::Zero, Fate::New, Fate::Junk, Fate::Old, Fate::Gate];

/// A disk in memory stops where it is, whatever moment was marked, and what it held unsynced is torn.
impl<A: Allocator + Copy> Mortal for MemDisk<A> {
    ghost use Rattle.sector_device.specs.MemDisk.{failures_of, past_of};

    fn mark(&self) -> u64 {
        self.moment()
    }

    fn stop_now(&mut self)
        ensures found { IsFoundAs (past_of self.old).disk (past_of self.new) }
        ensures failures { failures_of self.new ≡ failures_of self.old }
    {
        self.crash(&FATES);
    }

    fn stop(&mut self, since: u64)
        ensures stopped { (moment : ℕ) → since ≡ moment → moment ≤ (past_of self.old).moment
            → HasStopped moment (past_of self.old) (past_of self.new) }
        ensures failures { failures_of self.new ≡ failures_of self.old }
    {
        self.stop_now();
    }
}
