//! The loop that cleans the index.
ghost use Rattle.std.specs.Prelude.{◌≡◌, IfSome, false, true};
ghost use Rattle.core_model.specs.Events.{Event};
ghost use Rattle.core_parts.specs.Cleaning.{cleaner};
ghost use Rattle.core_parts.specs.Replies.{reply_by};
ghost use Rattle.shared.specs.Served.{WasServed};

use crate::gate::{Gate, Point};
use crate::rest::{Rest, Sweep, has_ended, pause_cleaner};
use nsf_core::CleanReply;
use records::Error;
use shared::{CleanPart, Group, Memory, Shared};
use std::sync::atomic::AtomicU64;
use std::sync::{MutexGuard, Wait};

// Before a step the cleaner passes over the live entries of so many leaves. It has the lock meanwhile, so they are few.
const RUNS_A_STEP: u32 = 1;

/// Makes steps of the cleaner, each under the lock anew, until the stop flag is read. What is refused it passes over.
///
/// No clause says when it makes a step. Before each it passes over live entries, as many as a leaf has. Where no
/// entry is marked it makes none. After some steps that removed nothing it leaves room for the others by a pause, and
/// behind a round through the index that removed nothing it sleeps, longer each time. Behind a round in which no record
/// was made it makes no step until one is: nothing more can be taken out before.
pub fn clean_loop<B: Group, R: Wait, G: Gate, A: Memory>(
    rt: &R,
    shared: &Shared<B, A>,
    part: &mut CleanPart<B>,
    gate: &G,
)
    ensures { part.new ≡ record part.old { stopped = true } }
{
    clean_until(rt, shared, part, gate, false, &AtomicU64::new(0));
}

/// The same, until the run ends, if it is in one.
pub(crate) fn clean_until<B: Group, R: Wait, G: Gate, A: Memory>(
    rt: &R,
    shared: &Shared<B, A>,
    part: &mut CleanPart<B>,
    gate: &G,
    in_run: bool,
    ended: &AtomicU64,
)
    ensures part { part.new ≡ record part.old { stopped = part.new.stopped } }
    ensures stopped { in_run ≡ false → part.new.stopped ≡ true }
{
    let bell = &shared.board().waits().resting;
    let mut rest = Rest::new();
    let mut steps = 0;
    let mut sweep = Sweep::new();
    for _ in rt.forever() {
        let rings = bell.rings();
        if has_ended(in_run, ended) {
            return;
        }
        let is_stopped = part.stopped(shared);
        if is_stopped {
            return;
        }
        gate.at(Point::CleanStep);
        match clean_on(rt, shared, part, &mut sweep) {
            Ok(CleanReply::Cleaned(_)) => rest = Rest::new(),
            Ok(CleanReply::Kept(_)) => steps = pause_cleaner(rt, bell, rings, steps),
            Ok(CleanReply::Wrapped) | Err(_) => rest.sleep(rt, bell, rings),
        }
    }
    unreachable!()
}

// One step of the cleaner, if it may find something: else the answer is as behind a round.
fn clean_on<B: Group, R: Wait, A: Memory>(
    rt: &R,
    shared: &Shared<B, A>,
    part: &CleanPart<B>,
    sweep: &mut Sweep,
) -> Result<CleanReply, Error> {
    if sweep.found_nothing() && !sweep.go_round(records_made(rt, shared, part)) {
        return Ok(CleanReply::Wrapped);
    }
    let Some(reply) = clean_step(rt, shared, part) else {
        return Ok(CleanReply::Wrapped);
    };
    let reply = reply?;
    if let CleanReply::Wrapped = reply {
        sweep.go_round(records_made(rt, shared, part));
    }
    Ok(reply)
}

// The number of the last record made.
fn records_made<B: Group, R: Wait, A: Memory>(
    rt: &R,
    shared: &Shared<B, A>,
    part: &CleanPart<B>,
) -> u64 {
    let locked = shared.hold_to_clean(rt, part);
    let made = locked.core().last();
    MutexGuard::unlock(locked);
    made
}

// One step of the cleaner, behind the live entries that come before it. None where no entry is marked.
fn clean_step<B: Group, R: Wait, A: Memory>(
    rt: &R,
    shared: &Shared<B, A>,
    part: &CleanPart<B>,
) -> Option<Result<CleanReply, Error>>
    ensures { IfSome result (λ cleaned. ∥ WasServed B.site.opened Event.Clean (reply_by cleaner cleaned) ∥₁) }
{
    let mut locked = shared.hold_to_clean(rt, part);
    if locked.core().counts().marked == 0 {
        locked.push_outbox(rt, shared.queue());
        MutexGuard::unlock(locked);
        return None;
    }
    locked.pass_live(RUNS_A_STEP);
    let cleaned = locked.clean_step();
    locked.push_outbox(rt, shared.queue());
    MutexGuard::unlock(locked);
    Some(cleaned)
}
