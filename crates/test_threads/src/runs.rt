//! The loops of the store, beside its clients.
ghost use Rattle.std.specs.Prelude.{◌≡◌, Some};

use records::Error;
use sector_device::Device;
use shared::{Group, LoopParts, Shared};
use std::alloc::Global;
use std::sync::Wait;
use std::thread::Threads;
use threads_leader::{Course, Desk, run_led};
use threads_loops::{BuilderEnd, Ended, Gate, NotRun, run_beside};

/// What is left of the loops, what the clients returned, and how the flusher ended.
pub(crate) struct Ran<B: Group, D: Device, X> {
    pub clients: X,
    pub loops: LoopParts<B, D>,
    pub flushed: Result<(), Error>,
}

// What ran, without what the builder ended with.
fn ran_of<B: Group, D: Device, X>(ended: Ended<B, D, X>) -> Ran<B, D, X> {
    let Ended {
        clients,
        flush,
        build,
        clean,
        flushed,
        built: _,
    } = ended;
    let loops = LoopParts {
        flush,
        build,
        clean,
    };
    Ran {
        clients,
        loops,
        flushed,
    }
}

// The parts of the loops, as they come back where a thread was wanting.
fn parts_back<B: Group, D: Device, F: Drop>(not_run: NotRun<B, D, F>) -> LoopParts<B, D> {
    let NotRun {
        flush,
        build,
        clean,
        ..
    } = not_run;
    LoopParts {
        flush,
        build,
        clean,
    }
}

/// Runs the clients beside the loops. Where there is no thread for a loop, the parts of the loops come back.
pub(crate) fn run<
    B: Group + Send + Sync,
    D: Device + Send + Drop,
    R: Threads + Wait + Sync,
    G: Gate + Sync,
    X,
    F: FnOnce() -> X + Drop,
>(
    rt: &R,
    shared: &Shared<B>,
    loops: LoopParts<B, D>,
    gate: &G,
    clients: F,
) -> Result<Ran<B, D, X>, LoopParts<B, D>>
    requires { F.pre clients }
{
    let LoopParts {
        flush,
        build,
        clean,
    } = loops;
    let told = BuilderEnd::new();
    match run_beside(rt, shared, flush, build, clean, &told, gate, clients) {
        Ok((ended, _)) => Ok(ran_of(ended)),
        Err(not_run) => Err(parts_back(not_run)),
    }
}

/// The same, where the flusher's part lies on a desk, at which the clients may lead.
pub(crate) fn run_by_leaders<
    C: Course<D, Global> + Send + Sync,
    B: Group + Send + Sync,
    D: Device + Send + Drop,
    R: Threads + Wait + Sync,
    G: Gate + Sync,
    X,
    F: FnOnce() -> X + Drop,
>(
    rt: &R,
    shared: &Shared<B>,
    loops: LoopParts<B, D>,
    desk: &Desk<C, B, D>,
    gate: &G,
    clients: F,
) -> Result<Ran<B, D, X>, LoopParts<B, D>>
    requires begun { C.begun ≡ Some loops.flush }
    requires clients { F.pre clients }
{
    let LoopParts {
        flush,
        build,
        clean,
    } = loops;
    let told = BuilderEnd::new();
    match run_led(rt, shared, flush, build, clean, &told, desk, gate, clients) {
        Ok((ended, _)) => Ok(ran_of(ended)),
        Err(not_run) => Err(parts_back(not_run)),
    }
}
