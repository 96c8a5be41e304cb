//! The loops of a store, each in a thread of its own, beside what its seats do.
ghost use Rattle.std.specs.Prelude.{◌≡◌, None, Some, IfErr, IfOk, OnOk, false, true};
ghost use Rattle.record_values.specs.declared.error.Error.TheVariants.{DeviceFailed, Stopped};
ghost use Rattle.store_writer.specs.Parts.{has_failed};
ghost use Rattle.threads_flusher.specs.Going.{GoesOn};
ghost use Rattle.threads_loops.specs.Building.{BuildsOn, HasBuilt, reason_of};
ghost use Rattle.threads_loops.specs.Telling.{IsToldBy};
ghost use Rattle.threads_loops.specs.Through.{FlushesSo, HasFlushed, RunsThrough};

use crate::builder_end::BuilderEnd;
use crate::flushing::{FlushLoop, Flushed, Flushing};
use crate::gate::Gate;
use crate::reason::Told;
use crate::start::{Run, called_off, ran};
use crate::threads::{Building, NoThread, start_builder, start_cleaner, start_flusher};
use nsf_core::Ticket;
use records::Error;
use sector_device::Device;
use shared::{BuildPart, CleanPart, Group, Shared};
use std::sync::Wait;
use std::thread::{Scope, Threads, scope, scope_env};
use threads_flusher::FlushPart;

/// What is left of the loops, and what the clients returned.
#[derive(Drop)]
pub struct Ended<B: Group, D: Device, X> {
    /// What the clients returned.
    pub clients: X,
    pub flush: FlushPart<B, D>,
    pub build: BuildPart<B>,
    pub clean: CleanPart<B>,
    /// How the flusher ended.
    pub flushed: Result<(), Error>,
    /// The ticket of an index that a core which may lie under the lock completed meanwhile, of several that of the last
    /// one; or why none is told, which is `Stopped` where the clients ended first or there was nothing to build. A
    /// later build that was refused is told in its place. (No clause says that the ticket is the last one, that no
    /// later build was refused, or that an index which was completed is told.)
    pub built: Result<Ticket, Error>,
}

/// What was given, where a thread was wanting for one of the loops.
#[derive(Drop)]
pub struct NotRun<B: Group, D: Device, F> {
    pub flush: FlushPart<B, D>,
    pub build: BuildPart<B>,
    pub clean: CleanPart<B>,
    /// The clients, which were not called.
    pub clients: F,
    /// The thread that was wanting.
    pub want: NoThread,
}

/// Runs flusher, cleaner and builder beside the clients, each in a thread of its own, until the clients have ended;
/// then it ends the three, and waits for that. With what comes back it may be called again. The clients are called in
/// the thread of the caller, once each loop has its thread.
///
/// Where a thread is wanting for a loop, nothing is run: no loop makes a step, no client is called, and all that was
/// given comes back as it was (`not_run`), with a `NoThread`, which `threads` alone makes, where a start was refused.
///
/// Flusher and builder end as `flush_loop` and `build_loop` do, or with the clients. That there is no index is no
/// reason to end for the builder, nor that it is full while a transaction is active, whose end may give places back
/// (`builder`). What ends the builder is told to the clients (`BuilderEnd::reason`), and it is what the call answers
/// (`told`, `reason`). Nobody but this call, or who sets the stop flag, ends the run (no clause says so).
///
/// Not proved: that a loop makes a step and that the call returns; that a build under way is carried on, and each that
/// a client begins, also where it dropped an index that was complete; that the builder waits where the index is
/// complete or there is none, and while a few groups of its records are on their way to the device; and that another
/// refusal than those ends it, so that what is to be built then waits for the next run.
pub fn run_beside<
    't,
    B: Group + Send + Sync,
    D: Device + Send + Drop,
    R: Threads + Wait + Sync,
    G: Gate + Sync,
    X,
    F: FnOnce() -> X,
>(
    rt: &R,
    shared: &Shared<B>,
    flush: FlushPart<B, D>,
    build: BuildPart<B>,
    clean: CleanPart<B>,
    told: &'t BuilderEnd<B>,
    gate: &G,
    clients: F,
) -> Result<(Ended<B, D, X>, Told<'t, B>), NotRun<B, D, F>>
    requires clients { F.pre clients }
    ensures not_run { IfErr result (λ n. (n.flush ≡ flush) × (n.build ≡ build) × (n.clean ≡ clean)
        × (n.clients ≡ clients)) }
    ensures clients { IfOk result (λ r. F.post clients r.0.clients) }
    ensures goes_on { IfOk result (λ r. GoesOn D.past_of D.failures B.site.opened flush r.0.flush) }
    ensures through { IfOk result (λ r. RunsThrough D.past_of D.marks D.failures B.site.opened flush r.0.flush) }
    ensures sound { IfOk result (λ r. OnOk r.0.flushed (has_failed r.0.flush.writer ≡ false)) }
    ensures failed { IfOk result (λ r. IfErr r.0.flushed (λ error.
        (error ≡ DeviceFailed) × (has_failed r.0.flush.writer ≡ true))) }
    ensures builder { IfOk result (λ r. BuildsOn B.site.opened build r.0.built r.0.build) }
    ensures cleaner { IfOk result (λ r. r.0.clean ≡ record clean { stopped = r.0.clean.stopped }) }
    ensures told { IfOk result (λ r. IsToldBy told.now r.1) }
    ensures reason { IfOk result (λ r. r.1.error ≡ reason_of r.0.built) }
{
    run_with(
        rt, shared, flush, build, clean, told, &FlushLoop, gate, clients,
    )
}

/// As `run_beside`, of which each clause stands here too. But the flusher's thread does with the part what `flushing`
/// does: which has to take it (`takes`), and to leave it as `flush_loop` does (`flushes`). (That it is asked to, no
/// clause says.)
pub fn run_with<
    't,
    B: Group + Send + Sync,
    D: Device + Send + Drop,
    R: Threads + Wait + Sync,
    G: Gate + Sync,
    W: Flushing<Shared<B>, FlushPart<B, D>> + Sync,
    X,
    F: FnOnce() -> X,
>(
    rt: &R,
    shared: &Shared<B>,
    flush: FlushPart<B, D>,
    build: BuildPart<B>,
    clean: CleanPart<B>,
    told: &'t BuilderEnd<B>,
    flushing: &W,
    gate: &G,
    clients: F,
) -> Result<(Ended<B, D, X>, Told<'t, B>), NotRun<B, D, F>>
    requires clients { F.pre clients }
    requires takes { W.takes flushing.now flush }
    requires flushes { FlushesSo D.past_of D.marks D.failures B.site.opened W.leaves }
    ensures not_run { IfErr result (λ n. (n.flush ≡ flush) × (n.build ≡ build) × (n.clean ≡ clean)
        × (n.clients ≡ clients)) }
    ensures clients { IfOk result (λ r. F.post clients r.0.clients) }
    ensures goes_on { IfOk result (λ r. GoesOn D.past_of D.failures B.site.opened flush r.0.flush) }
    ensures through { IfOk result (λ r. RunsThrough D.past_of D.marks D.failures B.site.opened flush r.0.flush) }
    ensures sound { IfOk result (λ r. OnOk r.0.flushed (has_failed r.0.flush.writer ≡ false)) }
    ensures failed { IfOk result (λ r. IfErr r.0.flushed (λ error.
        (error ≡ DeviceFailed) × (has_failed r.0.flush.writer ≡ true))) }
    ensures builder { IfOk result (λ r. BuildsOn B.site.opened build r.0.built r.0.build) }
    ensures cleaner { IfOk result (λ r. r.0.clean ≡ record clean { stopped = r.0.clean.stopped }) }
    ensures told { IfOk result (λ r. IsToldBy told.now r.1) }
    ensures reason { IfOk result (λ r. r.1.error ≡ reason_of r.0.built) }
{
    match run_loops(
        rt, shared, flush, build, clean, told, flushing, gate, clients,
    ) {
        Ok(ran) => {
            let told = told.tell(rt, Error::Stopped);
            Ok((ended_by(ran, told.error), told))
        }
        Err(not_run) => Err(not_run),
    }
}

// What is left of the loops, and what the clients returned, with the index that was completed last, if any.
#[derive(Drop)]
struct Ran<B: Group, D: Device, X> {
    clients: X,
    flush: FlushPart<B, D>,
    build: BuildPart<B>,
    clean: CleanPart<B>,
    flushed: Result<(), Error>,
    completed: Option<Ticket>,
}

// How a builder ended that completed this index last, if any, and could then make no step more.
fn end_of(completed: Option<Ticket>, error: Error) -> Result<Ticket, Error>
    ensures ok { IfOk result (λ ticket. (completed ≡ Some ticket) × (error ≡ Stopped)) }
    ensures err { IfErr result (λ e. (e ≡ error) × (error ≡ Stopped → completed ≡ None)) }
{
    match completed {
        None => Err(error),
        Some(ticket) => match error {
            Error::Stopped => Ok(ticket),
            other => Err(other),
        },
    }
}

// The same with how the builder ended, where this was told to be why it did.
fn ended_by<B: Group, D: Device, X>(ran: Ran<B, D, X>, error: Error) -> Ended<B, D, X>
    ensures same { result ≡ record {
      clients = ran.clients;
      flush = ran.flush;
      build = ran.build;
      clean = ran.clean;
      flushed = ran.flushed;
      built = result.built;
    } }
    ensures ok { IfOk result.built (λ ticket. (ran.completed ≡ Some ticket) × (error ≡ Stopped)) }
    ensures err { IfErr result.built (λ e. (e ≡ error) × (error ≡ Stopped → ran.completed ≡ None)) }
{
    let Ran {
        clients,
        flush,
        build,
        clean,
        flushed,
        completed,
    } = ran;
    Ended {
        clients,
        flush,
        build,
        clean,
        flushed,
        built: end_of(completed, error),
    }
}

// Runs the three loops beside the clients, and tells which index was completed last, if any.
fn run_loops<
    B: Group + Send + Sync,
    D: Device + Send + Drop,
    R: Threads + Wait + Sync,
    G: Gate + Sync,
    W: Flushing<Shared<B>, FlushPart<B, D>> + Sync,
    X,
    F: FnOnce() -> X,
>(
    rt: &R,
    shared: &Shared<B>,
    flush: FlushPart<B, D>,
    build: BuildPart<B>,
    clean: CleanPart<B>,
    told: &BuilderEnd<B>,
    flushing: &W,
    gate: &G,
    clients: F,
) -> Result<Ran<B, D, X>, NotRun<B, D, F>>
    requires clients { F.pre clients }
    requires takes { W.takes flushing.now flush }
    requires flushes { FlushesSo D.past_of D.marks D.failures B.site.opened W.leaves }
    ensures not_run { IfErr result (λ n. (n.flush ≡ flush) × (n.build ≡ build) × (n.clean ≡ clean)
        × (n.clients ≡ clients)) }
    ensures clients { IfOk result (λ r. F.post clients r.clients) }
    ensures flusher { IfOk result (λ r.
        HasFlushed D.past_of D.marks D.failures B.site.opened flush r.flush r.flushed) }
    ensures builder { IfOk result (λ r. HasBuilt B.site.opened build r.completed r.build) }
    ensures cleaner { IfOk result (λ r. r.clean ≡ record clean { stopped = r.clean.stopped }) }
{
    let run = Run::new();
    let run = &run;
    scope(
        scope_env(),
        rt,
        move |scope| -> Result<Ran<B, D, X>, NotRun<B, D, F>>
            requires clients { F.pre clients }
            requires takes { W.takes flushing.now flush }
            requires flushes { FlushesSo D.past_of D.marks D.failures B.site.opened W.leaves }
            ensures not_run { IfErr result (λ n. (n.flush ≡ flush) × (n.build ≡ build) × (n.clean ≡ clean)
                × (n.clients ≡ clients)) }
            ensures clients { IfOk result (λ r. F.post clients r.clients) }
            ensures flusher { IfOk result (λ r.
                HasFlushed D.past_of D.marks D.failures B.site.opened flush r.flush r.flushed) }
            ensures builder { IfOk result (λ r. HasBuilt B.site.opened build r.completed r.build) }
            ensures cleaner { IfOk result (λ r. r.clean ≡ record clean { stopped = r.clean.stopped }) }
        {
            flush_beside(
                rt, scope, shared, flush, build, clean, told, flushing, gate, run, clients,
            )
        },
    )
}

// ---- the flusher

// Runs the flusher beside cleaner, builder and clients.
fn flush_beside<
    's,
    'e: 's,
    B: Group + Send + Sync + 'e,
    D: Device + Send + Drop + 'e,
    R: Threads + Wait + Sync,
    G: Gate + Sync,
    W: Flushing<Shared<B>, FlushPart<B, D>> + Sync,
    X,
    F: FnOnce() -> X,
>(
    rt: &'e R,
    scope: &'s Scope<'s, &'e ()>,
    shared: &'e Shared<B>,
    flush: FlushPart<B, D>,
    build: BuildPart<B>,
    clean: CleanPart<B>,
    told: &'e BuilderEnd<B>,
    flushing: &'e W,
    gate: &'e G,
    run: &'e Run,
    clients: F,
) -> Result<Ran<B, D, X>, NotRun<B, D, F>>
    requires clients { F.pre clients }
    requires takes { W.takes flushing.now flush }
    requires flushes { FlushesSo D.past_of D.marks D.failures B.site.opened W.leaves }
    ensures not_run { IfErr result (λ n. (n.flush ≡ flush) × (n.build ≡ build) × (n.clean ≡ clean)
        × (n.clients ≡ clients)) }
    ensures clients { IfOk result (λ r. F.post clients r.clients) }
    ensures flusher { IfOk result (λ r.
        HasFlushed D.past_of D.marks D.failures B.site.opened flush r.flush r.flushed) }
    ensures builder { IfOk result (λ r. HasBuilt B.site.opened build r.completed r.build) }
    ensures cleaner { IfOk result (λ r. r.clean ≡ record clean { stopped = r.clean.stopped }) }
{
    match start_flusher(rt, scope, shared, flush, flushing, gate, run) {
        Ok(thread) => {
            match clean_beside(rt, scope, shared, build, clean, told, gate, run, clients) {
                Ok(beside) => Ok(all_ran(ran(rt, thread.join(rt)), beside)),
                Err((build, clean, clients, want)) => Err(NotRun {
                    flush: called_off(rt, thread.join(rt)),
                    build,
                    clean,
                    clients,
                    want,
                }),
            }
        }
        Err((flush, want)) => Err(NotRun {
            flush,
            build,
            clean,
            clients,
            want,
        }),
    }
}

fn all_ran<B: Group, D: Device, X>(
    flushed: Flushed<FlushPart<B, D>>,
    beside: Beside<B, X>,
) -> Ran<B, D, X>
    ensures { result ≡ record {
      clients = beside.clients;
      flush = flushed.flush;
      build = beside.build;
      clean = beside.clean;
      flushed = flushed.ended;
      completed = beside.completed;
    } }
{
    let Flushed { flush, ended } = flushed;
    let Beside {
        build,
        clean,
        completed,
        clients,
    } = beside;
    Ran {
        clients,
        flush,
        build,
        clean,
        flushed: ended,
        completed,
    }
}

// ---- the cleaner

// How builder, cleaner and clients ended.
struct Beside<B: Group, X> {
    build: BuildPart<B>,
    clean: CleanPart<B>,
    completed: Option<Ticket>,
    clients: X,
}

// Runs the cleaner beside the builder and the clients.
fn clean_beside<
    's,
    'e: 's,
    B: Group + Send + Sync + 'e,
    R: Threads + Wait + Sync,
    G: Gate + Sync,
    X,
    F: FnOnce() -> X,
>(
    rt: &'e R,
    scope: &'s Scope<'s, &'e ()>,
    shared: &'e Shared<B>,
    build: BuildPart<B>,
    clean: CleanPart<B>,
    told: &'e BuilderEnd<B>,
    gate: &'e G,
    run: &'e Run,
    clients: F,
) -> Result<Beside<B, X>, (BuildPart<B>, CleanPart<B>, F, NoThread)>
    requires clients { F.pre clients }
    ensures not_run { IfErr result (λ n. (n.0 ≡ build) × (n.1 ≡ clean) × (n.2 ≡ clients)) }
    ensures clients { IfOk result (λ b. F.post clients b.clients) }
    ensures builder { IfOk result (λ b. HasBuilt B.site.opened build b.completed b.build) }
    ensures cleaner { IfOk result (λ b. b.clean ≡ record clean { stopped = b.clean.stopped }) }
{
    match start_cleaner(rt, scope, shared, clean, gate, run) {
        Ok(cleaning) => match build_beside(rt, scope, shared, build, told, gate, run, clients) {
            Ok((building, clients)) => {
                let Building { build, completed } = building;
                Ok(Beside {
                    build,
                    clean: ran(rt, cleaning.join(rt)),
                    completed,
                    clients,
                })
            }
            Err((build, clients, want)) => {
                Err((build, called_off(rt, cleaning.join(rt)), clients, want))
            }
        },
        Err((clean, want)) => Err((build, clean, clients, want)),
    }
}

// ---- the builder

// Runs the builder beside the clients, which end the run.
fn build_beside<
    's,
    'e: 's,
    B: Group + Send + Sync + 'e,
    R: Threads + Wait + Sync,
    G: Gate + Sync,
    X,
    F: FnOnce() -> X,
>(
    rt: &'e R,
    scope: &'s Scope<'s, &'e ()>,
    shared: &'e Shared<B>,
    build: BuildPart<B>,
    told: &'e BuilderEnd<B>,
    gate: &'e G,
    run: &'e Run,
    clients: F,
) -> Result<(Building<B>, X), (BuildPart<B>, F, NoThread)>
    requires clients { F.pre clients }
    ensures not_run { IfErr result (λ n. (n.0 ≡ build) × (n.1 ≡ clients)) }
    ensures clients { IfOk result (λ r. F.post clients r.1) }
    ensures builder { IfOk result (λ r. HasBuilt B.site.opened build r.0.completed r.0.build) }
{
    match start_builder(rt, scope, shared, build, told, gate, run) {
        Ok(building) => {
            run.begin();
            let returned = clients();
            run.end();
            shared.board().waits().ring_all();
            Ok((ran(rt, building.join(rt)), returned))
        }
        Err((build, want)) => Err((build, clients, want)),
    }
}
