//! What the threads are given, each its part.
ghost use Rattle.std.specs.Prelude.{◌≡◌};

use crate::builder::BuildPart;
use crate::cleaner::CleanPart;
use crate::seat::Seat;
use locked_core::{Group, Memory};
use sector_device::Device;
use std::alloc::Global;
use threads_flusher::FlushPart;
use threads_sessions::{Keeping, Told};

/// The seats, the part of the flusher, which owns the device, the builder's, and the cleaner's.
#[derive(Drop)]
pub struct Parts<B: Group, D: Device, A: Memory = Global, K: Keeping = Told> {
    pub seats: Vec<Seat<B, A, K>, A>,
    pub flush: FlushPart<B, D, A>,
    pub build: BuildPart<B>,
    pub clean: CleanPart<B>,
}

/// The parts of the three loops.
#[derive(Drop)]
pub struct LoopParts<B: Group, D: Device, A: Memory = Global> {
    pub flush: FlushPart<B, D, A>,
    pub build: BuildPart<B>,
    pub clean: CleanPart<B>,
}

impl<B: Group, D: Device, A: Memory, K: Keeping> Parts<B, D, A, K> {
    /// The seats, and the parts of the loops.
    pub fn split(self) -> (Vec<Seat<B, A, K>, A>, LoopParts<B, D, A>)
        ensures seats { result.0.items ≡ self.seats.items }
        ensures flush { result.1.flush ≡ self.flush }
        ensures build { result.1.build ≡ self.build }
        ensures clean { result.1.clean ≡ self.clean }
    {
        let Parts {
            seats,
            flush,
            build,
            clean,
        } = self;
        let loops = LoopParts {
            flush,
            build,
            clean,
        };
        (seats, loops)
    }
}

impl<B: Group, D: Device, A: Memory> LoopParts<B, D, A> {
    /// These parts, with the seats.
    pub fn with_seats<K: Keeping>(self, seats: Vec<Seat<B, A, K>, A>) -> Parts<B, D, A, K>
        ensures seats { result.seats.items ≡ seats.items }
        ensures flush { result.flush ≡ self.flush }
        ensures build { result.build ≡ self.build }
        ensures clean { result.clean ≡ self.clean }
    {
        let LoopParts {
            flush,
            build,
            clean,
        } = self;
        Parts {
            seats,
            flush,
            build,
            clean,
        }
    }
}
