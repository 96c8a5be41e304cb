//! Seats wait for no loop and for no leader, and go on where the device fails; the cleaner takes marked entries out,
//! and the builder tells its progress.
use crate::claims::{claim, claim_at};
use crate::players::Writes;
use crate::scene::{Played, play};
use crate::stage::{Place, Stage};
use records::Error;
use std::alloc::Global;
use std::rt::Clock;
use std::sync::Wait;
use std::thread::Threads;
use threads_loops::Point;

// So many of the sixty transactions of four writers are commits; each fourth is taken back.
const COMMITS: u32 = 48;

// So many writes and syncs are made where a new store is opened, an engine puts a row, and is shared.
const OPENING: u64 = 301;

// Where flusher or leader, and builder, are held.
type Places = (Place, Place);

// The first time that the flusher syncs, and that the builder has scanned a page.
const AT_FIRST: Places = (Place::Sync, Place::At(Point::BuildScanned));

// The first time that the flusher is to copy a chunk, and that the builder has tried a pair.
const AT_COPIES: Places = (Place::At(Point::CopyStep), Place::At(Point::BuildAttempt));

// The first time that a seat which leads syncs.
const AT_LEADER: Places = (Place::LeaderSync, Place::At(Point::BuildScanned));

// The first write to the device.
const AT_WRITE: Places = (Place::Write, Place::At(Point::BuildScanned));

// Whether all commits were acknowledged, nothing was refused, all was written out, and what is found then is what the
// commits left. The index and the builder's progress were seen, and no entry that was marked is left.
fn is_quiet(played: &Played) -> bool {
    let (told, found) = (&played.told, &played.seen.found);
    let refused = told.refused.or(played.flusher).or(played.seen.end);
    let is_found = found.lost == 0 && found.back == 0 && found.marked == 0;
    told.acknowledged == COMMITS
        && told.failed == 0
        && told.seen
        && refused.is_none()
        && played.seen.whole
        && is_found
}

// Whether it is so with both held there. An image begins as half the 16 slots are open, each of a group, where the
// flusher makes all groups.
fn holds_no_seat<R: Threads + Wait + Clock + Sync>(
    rt: &R,
    alloc: Global,
    (flusher, builder): Places,
    writes: Writes,
) -> bool {
    let stage = Stage::new(rt, flusher, builder);
    let played = play(rt, alloc, &stage, writes, 0);
    let held = stage.holds() && !stage.is_late();
    let begun = writes == Writes::Leaders || stage.groups() == 8;
    match played {
        Ok(played) => held && begun && is_quiet(&played),
        Err(_) => false,
    }
}

// While flusher, or a seat that leads, and builder are held at once, a seat inserts, reads, and commits; and while the
// builder stays there, it deletes what was scanned, its commit is acknowledged, and the cleaner goes on. All commits of
// the writers are acknowledged, all is written out, and after a crash each row is as the commits left it. Once the
// index is complete it finds a row, no entry that was marked is left, and attempts were told.
#[test]
fn loops_that_are_held_hold_no_seat(rt: HostRuntime) {
    let at_first = holds_no_seat(&rt, rt.alloc(), AT_FIRST, Writes::Flusher);
    claim(&rt, at_first, "a flusher that is held at a sync");
    let at_copies = holds_no_seat(&rt, rt.alloc(), AT_COPIES, Writes::Flusher);
    claim(&rt, at_copies, "a flusher that is held at a copy");
    let at_leader = holds_no_seat(&rt, rt.alloc(), AT_LEADER, Writes::Leaders);
    claim(&rt, at_leader, "a leader that is held at a sync");
}

// Whether a failure of the device was told to the flusher, to each ticket that was not reached, and at the end, and
// each row is as the acknowledged commits left it. Nothing else was refused.
fn is_kept(played: &Played) -> bool {
    let failed = Some(Error::DeviceFailed);
    let (told, found) = (&played.told, &played.seen.found);
    played.flusher == failed
        && played.seen.end == failed
        && told.refused.is_none()
        && told.failed > 0
        && told.acknowledged.saturating_add(told.failed) == COMMITS
        && played.seen.whole
        && found.lost == 0
        && found.back == 0
}

// Whether it is so where a write or sync fails so far after the opening, with both loops held.
fn keeps_after<R: Threads + Wait + Clock + Sync>(
    rt: &R,
    alloc: Global,
    (after, (flusher, builder)): (u64, Places),
    writes: Writes,
) -> bool {
    let stage = Stage::new(rt, flusher, builder);
    let fails_at = OPENING.saturating_add(after);
    match play(rt, alloc, &stage, writes, fails_at) {
        Ok(played) => stage.holds() && !stage.is_late() && is_kept(&played),
        Err(_) => false,
    }
}

// Whether no store is opened where the last write or sync of the opening fails.
fn opens_nothing<R: Threads + Wait + Clock + Sync>(rt: &R, alloc: Global) -> bool {
    let stage = Stage::new(rt, AT_FIRST.0, AT_FIRST.1);
    let played = play(rt, alloc, &stage, Writes::Flusher, OPENING);
    matches!(played, Err(Error::DeviceFailed)) && !stage.holds()
}

// So far after the opening a write or sync fails, and where both loops are held before.
static FAILURES: [(u64, Places); 4] = [
    (1, AT_WRITE),
    (30, AT_FIRST),
    (60, AT_FIRST),
    (100, AT_FIRST),
];

// Where the last write or sync of the opening fails, no store is opened. Where one fails after it, while both loops
// were held, the flusher is told so, each ticket that is not reached, and the end, which gives the device back. The
// writers make all their steps, and after a crash and a restart each row is as the acknowledged commits left it.
#[test]
fn what_is_acknowledged_is_kept(rt: HostRuntime) {
    let refused = opens_nothing(&rt, rt.alloc());
    claim(&rt, refused, "nothing is opened");
    for failure in &FAILURES {
        let kept = keeps_after(&rt, rt.alloc(), *failure, Writes::Flusher);
        claim_at(&rt, kept, "a failure under a flusher", failure.0);
        let led = keeps_after(&rt, rt.alloc(), *failure, Writes::Leaders);
        claim_at(&rt, led, "a failure under leaders", failure.0);
    }
}
