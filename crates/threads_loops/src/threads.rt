//! The threads of a run, each of which waits for the word, and what each of them does then.
ghost use Rattle.std.specs.Prelude.{◌≡◌, IfErr, IfOk};
ghost use Rattle.threads_loops.specs.Building.{HasBuilt};
ghost use Rattle.threads_loops.specs.Through.{FlushesSo, HasFlushed};

use crate::build::build_until;
use crate::builder_end::BuilderEnd;
use crate::clean::clean_until;
use crate::flushing::{Flushed, Flushing};
use crate::gate::Gate;
use crate::start::{Run, called_off};
use nsf_core::Ticket;
use records::Error;
use sector_device::Device;
use shared::{BuildPart, CleanPart, Group, Shared};
use std::snapshot::Snapshot;
use std::sync::Wait;
use std::sync::atomic::AtomicU64;
use std::thread::{Promise, PromisedHandle, Scope, Threads};
use threads_flusher::FlushPart;

/// Says that a thread could not be made. No other module can make one; that this one makes it where a start was refused
/// alone is for its reader to see, since the standard library's refusal may be written by anybody.
#[derive(Drop, Debug)]
pub struct NoThread(());

// ---- the flusher

/// What the flusher's thread gives back.
#[derive(Drop)]
pub(crate) struct FlushesOn<B: Group, D: Device>(Snapshot<FlushPart<B, D>>);

impl<B: Group, D: Device> Promise<Result<Flushed<FlushPart<B, D>>, FlushPart<B, D>>>
    for FlushesOn<B, D> {
    ghost use Rattle.std.specs.Prelude.{◌≡◌, IfErr, IfOk};
    ghost use Rattle.threads_loops.specs.Through.{HasFlushed};

    ghost kept_by = { λ p result. IfErr result (λ part. part ≡ p.0.value)
        × IfOk result (λ f.
        HasFlushed D.past_of D.marks D.failures B.site.opened p.0.value f.flush f.ended) };
}

// What the flusher does in its thread: nothing, where the run was called off.
fn flush_in_run<B: Group, D: Device, R: Wait, G: Gate, W: Flushing<Shared<B>, FlushPart<B, D>>>(
    rt: &R,
    shared: &Shared<B>,
    flush: FlushPart<B, D>,
    flushing: &W,
    gate: &G,
    run: &Run,
) -> Result<Flushed<FlushPart<B, D>>, FlushPart<B, D>>
    requires takes { W.takes flushing.now flush }
    requires flushes { FlushesSo D.past_of D.marks D.failures B.site.opened W.leaves }
    ensures called_off { IfErr result (λ part. part ≡ flush) }
    ensures ran { IfOk result (λ f. HasFlushed D.past_of D.marks D.failures B.site.opened flush f.flush f.ended) }
{
    if !run.begins(rt) {
        return Err(flush);
    }
    Ok(flushing.flush(rt, shared, flush, gate, &run.ended))
}

// The flusher's thread.
type FlushThread<B, D> = PromisedHandle<
    Result<Flushed<FlushPart<B, D>>, FlushPart<B, D>>,
    FlushesOn<B, D>,
>;

/// Starts the flusher's thread. Where it can't be made, the run is called off, and the part comes back.
pub(crate) fn start_flusher<
    's,
    'e: 's,
    B: Group + Send + Sync + 'e,
    D: Device + Send + Drop + 'e,
    R: Threads + Wait + Sync,
    G: Gate + Sync,
    W: Flushing<Shared<B>, FlushPart<B, D>> + Sync,
>(
    rt: &'e R,
    scope: &'s Scope<'s, &'e ()>,
    shared: &'e Shared<B>,
    flush: FlushPart<B, D>,
    flushing: &'e W,
    gate: &'e G,
    run: &'e Run,
) -> Result<FlushThread<B, D>, (FlushPart<B, D>, NoThread)>
    requires takes { W.takes flushing.now flush }
    requires flushes { FlushesSo D.past_of D.marks D.failures B.site.opened W.leaves }
    ensures started { IfOk result (λ h. h.promise.0.value ≡ flush) }
    ensures back { IfErr result (λ r. r.0 ≡ flush) }
{
    let promise = FlushesOn(Snapshot::of(&flush));
    let work = move || flush_in_run(rt, shared, flush, flushing, gate, run);
    match scope.spawn_with(promise, work) {
        Ok(thread) => Ok(thread),
        Err(refused) => {
            run.call_off();
            Err((called_off(rt, (refused.value)()), NoThread(())))
        }
    }
}

// ---- the cleaner

/// What the cleaner's thread gives back.
#[derive(Drop)]
pub(crate) struct CleansOn<B: Group>(Snapshot<CleanPart<B>>);

impl<B: Group> Promise<Result<CleanPart<B>, CleanPart<B>>> for CleansOn<B> {
    ghost use Rattle.std.specs.Prelude.{◌≡◌, IfErr, IfOk};

    ghost kept_by = { λ p result. IfErr result (λ part. part ≡ p.0.value)
        × IfOk result (λ part. part ≡ record p.0.value { stopped = part.stopped }) };
}

// What the cleaner does in its thread: nothing, where the run was called off.
fn clean_in_run<B: Group, R: Wait, G: Gate>(
    rt: &R,
    shared: &Shared<B>,
    mut clean: CleanPart<B>,
    gate: &G,
    run: &Run,
) -> Result<CleanPart<B>, CleanPart<B>>
    ensures called_off { IfErr result (λ part. part ≡ clean) }
    ensures ran { IfOk result (λ part. part ≡ record clean { stopped = part.stopped }) }
{
    if !run.begins(rt) {
        return Err(clean);
    }
    clean_until(rt, shared, &mut clean, gate, true, &run.ended);
    Ok(clean)
}

// The cleaner's thread.
type CleanThread<B> = PromisedHandle<Result<CleanPart<B>, CleanPart<B>>, CleansOn<B>>;

/// Starts the cleaner's thread. Where it can't be made, the run is called off, and the part comes back.
pub(crate) fn start_cleaner<
    's,
    'e: 's,
    B: Group + Send + Sync + 'e,
    R: Threads + Wait + Sync,
    G: Gate + Sync,
>(
    rt: &'e R,
    scope: &'s Scope<'s, &'e ()>,
    shared: &'e Shared<B>,
    clean: CleanPart<B>,
    gate: &'e G,
    run: &'e Run,
) -> Result<CleanThread<B>, (CleanPart<B>, NoThread)>
    ensures started { IfOk result (λ h. h.promise.0.value ≡ clean) }
    ensures back { IfErr result (λ r. r.0 ≡ clean) }
{
    let promise = CleansOn(Snapshot::of(&clean));
    match scope.spawn_with(promise, move || clean_in_run(rt, shared, clean, gate, run)) {
        Ok(cleaning) => Ok(cleaning),
        Err(refused) => {
            run.call_off();
            Err((called_off(rt, (refused.value)()), NoThread(())))
        }
    }
}

// ---- the builder

/// What the builder's thread gives back.
#[derive(Drop)]
pub(crate) struct BuildsFrom<B: Group>(Snapshot<BuildPart<B>>);

impl<B: Group> Promise<Result<Building<B>, BuildPart<B>>> for BuildsFrom<B> {
    ghost use Rattle.std.specs.Prelude.{◌≡◌, IfErr, IfOk};
    ghost use Rattle.threads_loops.specs.Building.{HasBuilt};

    ghost kept_by = { λ p result. IfErr result (λ part. part ≡ p.0.value)
        × IfOk result (λ b. HasBuilt B.site.opened p.0.value b.completed b.build) };
}

// What the builder does in its thread: nothing, where the run was called off.
fn build_in_run<B: Group, R: Wait, G: Gate>(
    rt: &R,
    shared: &Shared<B>,
    build: BuildPart<B>,
    told: &BuilderEnd<B>,
    gate: &G,
    run: &Run,
) -> Result<Building<B>, BuildPart<B>>
    ensures called_off { IfErr result (λ part. part ≡ build) }
    ensures ran { IfOk result (λ b. HasBuilt B.site.opened build b.completed b.build) }
{
    if !run.begins(rt) {
        return Err(build);
    }
    Ok(build_until_end(rt, shared, build, told, gate, &run.ended))
}

// The builder's thread.
type BuildThread<B> = PromisedHandle<Result<Building<B>, BuildPart<B>>, BuildsFrom<B>>;

/// Starts the builder's thread. Where it can't be made, the run is called off, and the part comes back.
pub(crate) fn start_builder<
    's,
    'e: 's,
    B: Group + Send + Sync + 'e,
    R: Threads + Wait + Sync,
    G: Gate + Sync,
>(
    rt: &'e R,
    scope: &'s Scope<'s, &'e ()>,
    shared: &'e Shared<B>,
    build: BuildPart<B>,
    told: &'e BuilderEnd<B>,
    gate: &'e G,
    run: &'e Run,
) -> Result<BuildThread<B>, (BuildPart<B>, NoThread)>
    ensures started { IfOk result (λ h. h.promise.0.value ≡ build) }
    ensures back { IfErr result (λ r. r.0 ≡ build) }
{
    let promise = BuildsFrom(Snapshot::of(&build));
    let building = move || build_in_run(rt, shared, build, told, gate, run);
    match scope.spawn_with(promise, building) {
        Ok(building) => Ok(building),
        Err(refused) => {
            run.call_off();
            Err((called_off(rt, (refused.value)()), NoThread(())))
        }
    }
}

/// How the builder ended: with the ticket of the index that it completed last, if any.
#[derive(Drop)]
pub(crate) struct Building<B: Group> {
    pub(crate) build: BuildPart<B>,
    pub(crate) completed: Option<Ticket>,
}

// Builds until the builder is ended, and tells why it is.
fn build_until_end<B: Group, R: Wait, G: Gate>(
    rt: &R,
    shared: &Shared<B>,
    mut build: BuildPart<B>,
    told: &BuilderEnd<B>,
    gate: &G,
    ended: &AtomicU64,
) -> Building<B>
    ensures { HasBuilt B.site.opened build result.completed result.build }
{
    let mut completed = None;
    for _ in rt.forever() {
        match build_until(rt, shared, &mut build, gate, true, ended) {
            Ok(ticket) => completed = Some(ticket),
            Err(error) => {
                told.tell(rt, error);
                return Building { build, completed };
            }
        }
    }
    unreachable!()
}
