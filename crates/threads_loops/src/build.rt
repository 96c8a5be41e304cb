//! The loop that builds the index.
ghost use Rattle.std.specs.Prelude.{◌≡◌, ◌≢◌, ◌⊎◌, ◌<◌, ◌≤◌, Err, IsTrue, IfOk, IfErr, false, true};
ghost use Rattle.record_values.specs.declared.error.Error.{Error as ErrorValue};
ghost use Rattle.record_values.specs.declared.error.Error.TheVariants.{NoMemory, Stopped};
ghost use Rattle.core_model.specs.Events.{Event, Refused};
ghost use Rattle.core_parts.specs.Builds.{built};
ghost use Rattle.core_parts.specs.Replies.{reply_by};
ghost use Rattle.core_parts.specs.declared.reply.BuildReply.TheVariants as reply;
ghost use Rattle.shared.specs.Served.{WasServed};
ghost use Rattle.threads_loops.specs.Building.{EndsRun, HasAttempted, HasPublished, HasRefused, HasStepped, IsOutcome};

use crate::gate::{Gate, Point};
use crate::rest::{Pace, Rest, bytes_built, has_ended};
use nsf_core::{BuildReply, Ticket};
use records::Error;
use shared::{BuildPart, Group, Memory, Shared};
use std::sync::atomic::AtomicU64;
use std::sync::{MutexGuard, Wait};

/// What a step of the builder means to the loop.
#[derive(Clone, Copy)]
pub(crate) enum Outcome {
    /// The index is complete, and the loop ends.
    Done(Ticket),
    /// The loop ends with this refusal.
    Refused(Error),
    /// A page was scanned.
    Scanned,
    /// A pair was placed, or was found to have an entry.
    Attempted,
    /// A checkpoint was made.
    Marked,
    /// Nothing was done: the index was complete before, or there is none yet, or room in it or memory is wanting.
    Nothing,
}

/// Makes steps of the builder, each under the lock anew, until one completes the index, and publishes behind each
/// attempt how many were made since the store was opened. Now and then it leaves room for the seats by a short pause.
/// Where the index was complete before, it sleeps, and looks again. After want of memory it tries again: the same step,
/// since one that was refused has changed nothing (`each_refusal` of `shared`).
///
/// `Stopped` where the stop flag was read. Else the refusal is one of the core's `build_step`, but not `NoMemory`.
pub fn build_loop<B: Group, R: Wait, G: Gate, A: Memory>(
    rt: &R,
    shared: &Shared<B, A>,
    build: &mut BuildPart<B>,
    gate: &G,
) -> Result<Ticket, Error>
    ensures done { IfOk result (λ ticket. ∥ WasServed B.site.opened Event.Build (built (reply.Done ticket)) ∥₁) }
    ensures published { IfOk result (λ ticket. ∥ HasPublished B.site.opened ticket build.new.progress ∥₁) }
    ensures why { IfErr result (λ e. ((e ≡ Stopped) × IsTrue build.new.stopped)
        ⊎ ((e ≢ NoMemory) × ∥ WasServed B.site.opened Event.Build (Refused e) ∥₁)) }
    ensures rises { build.old.progress ≤ build.new.progress }
    ensures attempted { build.old.progress < build.new.progress → ∥ HasAttempted B.site.opened build.new.progress ∥₁ }
{
    build_until(rt, shared, build, gate, false, &AtomicU64::new(0))
}

/// The same, until the run ends, if it is in one. Then it also waits for an index where there is none; and for room in
/// a full one where a transaction is active, whose end may give places back. Where a few groups of its records are on
/// their way to the device it waits until some are written there, but not for long.
pub(crate) fn build_until<B: Group, R: Wait, G: Gate, A: Memory>(
    rt: &R,
    shared: &Shared<B, A>,
    build: &mut BuildPart<B>,
    gate: &G,
    in_run: bool,
    ended: &AtomicU64,
) -> Result<Ticket, Error>
    ensures done { IfOk result (λ ticket. ∥ WasServed B.site.opened Event.Build (built (reply.Done ticket)) ∥₁) }
    ensures published { IfOk result (λ ticket. ∥ HasPublished B.site.opened ticket build.new.progress ∥₁) }
    ensures why { IfErr result (λ e. ((e ≡ Stopped) × (in_run ≡ false → IsTrue build.new.stopped))
        ⊎ ((e ≢ NoMemory) × ∥ WasServed B.site.opened Event.Build (Refused e) ∥₁
        × (in_run ≡ true → EndsRun B.site.opened e))) }
    ensures rises { build.old.progress ≤ build.new.progress }
    ensures attempted { build.old.progress < build.new.progress → ∥ HasAttempted B.site.opened build.new.progress ∥₁ }
{
    let waits = shared.board().waits();
    let bell = &waits.resting;
    let mut rest = Rest::new();
    let mut pace = Pace::new(waits);
    for _ in rt.forever() {
        let rings = bell.rings();
        if has_ended(in_run, ended) {
            return Err(Error::Stopped);
        }
        if build.stopped(shared) {
            return Err(Error::Stopped);
        }
        let (step, attempts, is_quiet) = build_step(rt, shared, build);
        let bytes = bytes_built(&step, in_run);
        match outcome_of(step, in_run, is_quiet) {
            Outcome::Done(ticket) => {
                build.raise_progress(shared, attempts);
                return Ok(ticket);
            }
            Outcome::Refused(error) => return Err(error),
            Outcome::Scanned => {
                gate.at(Point::BuildScanned);
                pace.leave_room(rt, waits, rings, bytes);
            }
            Outcome::Attempted => {
                build.raise_progress(shared, attempts);
                gate.at(Point::BuildAttempt);
                pace.leave_room(rt, waits, rings, bytes);
            }
            Outcome::Marked => {}
            Outcome::Nothing => rest.sleep(rt, bell, rings),
        }
    }
    unreachable!()
}

// What this answer of a step means, to a loop that waits for an index or for room in it, or to one that doesn't.
fn outcome_of(step: Result<BuildReply, Error>, waits: bool, is_quiet: bool) -> Outcome
    ensures { IsOutcome waits is_quiet result step }
{
    match step {
        Ok(BuildReply::Done(ticket)) => Outcome::Done(ticket),
        Ok(BuildReply::Scanned(_)) => Outcome::Scanned,
        Ok(BuildReply::Placed(_)) => Outcome::Attempted,
        Ok(BuildReply::Rejected(_)) => Outcome::Attempted,
        Ok(BuildReply::Marked(..)) => Outcome::Marked,
        Ok(BuildReply::Idle) => Outcome::Nothing,
        Err(Error::NoMemory) => Outcome::Nothing,
        Err(Error::NoIndex) if waits => Outcome::Nothing,
        Err(Error::IndexFull) if waits && !is_quiet => Outcome::Nothing,
        Err(error) => Outcome::Refused(error),
    }
}

// One step of the builder, which may have made a record; how many attempts were made since the store was opened, with
// it; and whether no transaction was active then.
fn build_step<B: Group, R: Wait, A: Memory>(
    rt: &R,
    shared: &Shared<B, A>,
    build: &BuildPart<B>,
) -> (Result<BuildReply, Error>, u64, bool)
    ensures stepped { ∥ HasStepped B.site.opened (reply_by built result.0) result.1 ∥₁ }
    ensures quiet { (e : ErrorValue) → result.0 ≡ Err e → result.2 ≡ true → ∥ HasRefused B.site.opened e ∥₁ }
{
    let mut locked = shared.hold_to_build(rt, build);
    let built = locked.build_step();
    let attempts = locked.attempts();
    let is_quiet = locked.is_quiet();
    locked.push_outbox(rt, shared.queue());
    MutexGuard::unlock(locked);
    if matches!(built, Ok(BuildReply::Done(_))) {
        shared.board().waits().pushed.ring();
    }
    (built, attempts, is_quiet)
}
