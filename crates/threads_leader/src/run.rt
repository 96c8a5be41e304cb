//! The loops of a store, each in a thread of its own, beside seats that write what they wait for themselves.
ghost use Rattle.std.specs.Prelude.{◌≡◌, Some, IfErr, IfOk, OnOk, false, true};
ghost use Rattle.record_values.specs.declared.error.Error.TheVariants.{DeviceFailed};
ghost use Rattle.store_writer.specs.Parts.{has_failed};
ghost use Rattle.threads_loops.specs.Going.{GoesOn};
ghost use Rattle.threads_loops.specs.Building.{BuildsOn, reason_of};
ghost use Rattle.threads_loops.specs.Telling.{IsToldBy};
ghost use Rattle.threads_loops.specs.Through.{RunsThrough};

use crate::course::Course;
use crate::desk::Desk;
use sector_device::Device;
use std::alloc::Global;
use std::sync::Wait;
use std::thread::Threads;
use threads_loops::{
    BuildPart, BuilderEnd, CleanPart, Ended, FlushPart, Gate, Group, NotRun, Shared, Told, run_with,
};

/// As `run_beside` of `threads_loops`, of which each clause stands here too, word for word. But the flusher's part lies
/// on a desk, where a seat that waits by `Desk::await_ack` writes itself while nobody else does. The flusher's thread
/// does the rest: what nobody waits for it writes within some milliseconds, and it goes on with an image. Nothing wakes
/// it before, so a seat that waits by `Shared::await_ack` waits as long. (No clause says this.)
///
/// The desk is a new one, which the clients are lent. Its course names the part (`begun`): who makes it picks the
/// course once, by this equation. So one desk serves one run.
///
/// How the flusher ended tells its part in the end: `DeviceFailed` where the device has failed, also where it did so
/// under a seat (`sound`, `failed`). A gate is called with the desk's lock held (no clause says so).
pub fn run_led<
    't,
    C: Course<D, Global> + Send + Sync,
    B: Group + Send + Sync,
    D: Device + Send + Drop,
    R: Threads + Wait + Sync,
    G: Gate + Sync,
    X,
    F: FnOnce() -> X,
>(
    rt: &R,
    shared: &Shared<B>,
    flush: FlushPart<B, D>,
    build: BuildPart<B>,
    clean: CleanPart<B>,
    told: &'t BuilderEnd<B>,
    desk: &Desk<C, B, D>,
    gate: &G,
    clients: F,
) -> Result<(Ended<B, D, X>, Told<'t, B>), NotRun<B, D, F>>
    requires begun { C.begun ≡ Some flush }
    requires clients { F.pre clients }
    ensures not_run { IfErr result (λ n. (n.flush ≡ flush) × (n.build ≡ build) × (n.clean ≡ clean)
        × (n.clients ≡ clients)) }
    ensures clients { IfOk result (λ r. F.post clients r.0.clients) }
    ensures goes_on { IfOk result (λ r. GoesOn D.past_of D.failures B.site.opened flush r.0.flush) }
    ensures through { IfOk result (λ r. RunsThrough D.past_of D.marks D.failures B.site.opened flush r.0.flush) }
    ensures sound { IfOk result (λ r. OnOk r.0.flushed (has_failed r.0.flush.writer ≡ false)) }
    ensures failed { IfOk result (λ r. IfErr r.0.flushed (λ error.
        (error ≡ DeviceFailed) × (has_failed r.0.flush.writer ≡ true))) }
    ensures builder { IfOk result (λ r. BuildsOn B.site.opened build r.0.built r.0.build) }
    ensures cleaner { IfOk result (λ r. r.0.clean ≡ record clean { stopped = r.0.clean.stopped }) }
    ensures told { IfOk result (λ r. IsToldBy told.now r.1) }
    ensures reason { IfOk result (λ r. r.1.error ≡ reason_of r.0.built) }
{
    run_with(rt, shared, flush, build, clean, told, desk, gate, clients)
}
