//! What the flusher's thread of a run does with its part.
ghost use Rattle.record_values.specs.declared.error.Error.{Error as ErrorValue};
ghost use Rattle.std.specs.Prelude.{Result};
ghost use Rattle.threads_loops.specs.Through.{HasFlushed};

use crate::flush::flush_until;
use crate::gate::Gate;
use records::Error;
use sector_device::Device;
use shared::{Group, Shared};
use std::sync::Wait;
use std::sync::atomic::AtomicU64;
use threads_flusher::FlushPart;

/// A flusher's part, and how the flusher ended.
#[derive(Drop)]
pub struct Flushed<P> {
    pub flush: P,
    pub ended: Result<(), Error>,
}

/// What the flusher's thread of a run does, beside seats that share `S`, with its part `P`.
pub trait Flushing<S, P> {
    /// Which part it takes.
    ghost takes: { Self → P → Type 0 };

    /// What it may leave: of the part as it was, as it is then, and how it ended.
    ghost leaves: { P → P → Result (Unit {0}) ErrorValue → Type 0 };

    /// Takes the part once the run begins, and gives it back once the run has ended (`ended` is positive then), the
    /// stop flag is read, or the device has failed. (When it gives it back, no clause says.)
    fn flush<R: Wait, G: Gate>(
        &self,
        rt: &R,
        shared: &S,
        flush: P,
        gate: &G,
        ended: &AtomicU64,
    ) -> Flushed<P>
        requires takes { takes self.now flush }
        ensures leaves { leaves flush result.flush result.ended };
}

/// The flusher's thread writes alone, as `flush_loop` does.
#[derive(Clone, Copy)]
pub(crate) struct FlushLoop;

impl<B: Group, D: Device> Flushing<Shared<B>, FlushPart<B, D>> for FlushLoop {
    ghost takes = { λ _ _. Unit {0} };

    ghost leaves = { HasFlushed D.past_of D.marks D.failures B.site.opened };

    fn flush<R: Wait, G: Gate>(
        &self,
        rt: &R,
        shared: &Shared<B>,
        flush: FlushPart<B, D>,
        gate: &G,
        ended: &AtomicU64,
    ) -> Flushed<FlushPart<B, D>>
        ensures leaves { HasFlushed D.past_of D.marks D.failures B.site.opened flush result.flush result.ended }
    {
        let mut flush = flush;
        let ended = flush_until(rt, shared, &mut flush, gate, true, ended);
        Flushed { flush, ended }
    }
}
