// A store is stopped at each call of its device in turn, and crashes; and so are the restarts after that, at each of
// their calls.
use crate::answer::Answer;
use crate::claims::{claim, claim_at};
use crate::contents::Contents;
use crate::disk::Disk;
use crate::jobs::{Job, do_all};
use crate::opened::open;
use crate::store::{OpenStore, StoreMemory};
use records::Error;
use restart::Event;
use sector_device::{Fate, Which};
use std::alloc::Global;
use std::mem::forget;
use std::process::Abort;
use test_store::Script;

// More than the calls that a run makes.
const CALLS: u64 = 1_000;

// A row is deleted behind the scan of a build, and an image is taken before the build ends.
const SCRIPT: &[Script<'_>] = &[(
    1,
    "begin\ninsert 1 =a =\ninsert 1 =b =\ncommit 1\ncreate\nflush\nbuild\nbegin\n\
    delete 2 0.1\nstep 2\ncommit 2\nflush\nbuild 2\nimage\nimage\nimage\nimage\nbuild\nflush\n",
)];

/// The calls of a device that may fail, what becomes then of the sectors that are not synced, and of how many calls of
/// a restart one fails.
#[derive(Clone, Copy)]
pub(crate) struct Case {
    which: Which,
    fate: Fate,
    every: u64,
}

// The requests of a script, what they are answered while nothing fails, and what the store holds at first and whenever
// all is told to be safe.
#[derive(Drop)]
struct Whole<'a> {
    events: &'a [Event],
    answers: Vec<Answer>,
    given: Vec<Contents>,
}

// Runs the requests while nothing fails, and keeps what is answered and given.
fn run_whole(
    store: &mut impl OpenStore,
    events: &[Event],
    answers: &mut Vec<Answer>,
    given: &mut Vec<Contents>,
) -> Result<(), Error> {
    given.push(store.contents())?;
    for event in events {
        let answer = store.ask(event);
        if answer.safe().is_some() {
            given.push(store.contents())?;
        }
        answers.push(answer)?;
    }
    Ok(())
}

// Runs the requests on a new store while nothing fails.
fn whole_by_new<'a, M: StoreMemory>(
    rt: &impl Abort,
    memory: M,
    alloc: Global,
    events: &'a [Event],
) -> Result<Whole<'a>, Error> {
    let mut store = open(rt, memory, Disk::formatted(alloc, 1, 4)?)?;
    let mut answers = Vec::new(alloc);
    let mut given = Vec::new(alloc);
    let run = run_whole(&mut store, events, &mut answers, &mut given);
    drop(store.close());
    let whole = Whole {
        events,
        answers,
        given,
    };
    match run {
        Ok(()) => Ok(whole),
        Err(fail) => {
            forget(whole);
            Err(fail)
        }
    }
}

// What a run has told: up to which number all is safe, and whether the device has failed.
#[derive(Clone, Copy)]
struct Told {
    safe: u64,
    failed: bool,
}

// Takes the answer to a request: whether it may be this, where that is answered while nothing fails. A failure of the
// device is told, and from then on whenever the device is asked; all other answers stay.
fn take_answer(told: &mut Told, answer: &Answer, wanted: &Answer) -> bool {
    if wanted.is_of_device() && (told.failed || answer.is_failure()) {
        told.failed = true;
        return answer.is_failure();
    }
    told.safe = answer.safe().unwrap_or(told.safe);
    answer == wanted
}

// What the run tells.
fn run_all(rt: &impl Abort, store: &mut impl OpenStore, whole: &Whole<'_>) -> Told {
    let mut told = Told {
        safe: 0,
        failed: false,
    };
    for (event, wanted) in whole.events.iter().zip(&whole.answers) {
        let answer = store.ask(event);
        let is_wanted = take_answer(&mut told, &answer, wanted);
        claim(rt, is_wanted, "an answer that is wanted");
    }
    told
}

// That, and the disk, of a store that is opened there for these requests. It isn't opened only where the device fails.
fn run_over<M: StoreMemory>(
    rt: &impl Abort,
    memory: M,
    disk: Disk,
    whole: &Whole<'_>,
) -> (Told, Disk) {
    match memory.open(disk) {
        Ok(mut store) => {
            let told = run_all(rt, &mut store, whole);
            (told, store.close())
        }
        Err((error, disk)) => {
            claim(rt, error == Error::DeviceFailed, "a device that fails");
            let told = Told {
                safe: 0,
                failed: true,
            };
            (told, disk)
        }
    }
}

// What a run that was stopped had told to be safe, what a crash left of it, and whether the device has failed.
#[derive(Clone, Copy)]
struct Stopped {
    safe: u64,
    left: Contents,
    failed: bool,
}

// Opens the store that a crash left on the disk, once a restart was stopped at this of its calls, and the one after it
// too. What is held then, whether a restart was stopped, and the disk.
fn held_at_last<M: StoreMemory>(
    rt: &impl Abort,
    memory: M,
    mut disk: Disk,
    case: Case,
    call: u64,
) -> (Contents, bool, Disk) {
    for stops in 0..3u8 {
        let fails_at = if stops < 2 { call } else { 0 };
        match memory.open(disk.failing(case.which, fails_at)) {
            Ok(store) => {
                let held = store.contents();
                return (held, stops > 0, store.close());
            }
            Err((error, stopped)) => {
                claim(rt, error == Error::DeviceFailed, "a device that fails");
                disk = stopped.crash(case.fate);
            }
        }
    }
    drop(disk);
    rt.panic("each restart is stopped")
}

// The device fails at this of those calls. Just where it fails, that is told. What the run told, and what a crash left.
fn stop_run<M: StoreMemory>(
    rt: &impl Abort,
    memory: M,
    alloc: Global,
    whole: &Whole<'_>,
    case: Case,
    call: u64,
) -> Result<(Told, Disk), Error> {
    let disk = Disk::formatted(alloc, 1, 4)?.failing(case.which, call);
    let (told, disk) = run_over(rt, memory, disk, whole);
    let failed = call <= disk.made();
    claim_at(
        rt,
        told.failed == failed,
        "that a failure is told at call",
        call,
    );
    Ok((told, disk.crash(case.fate)))
}

// The first call of a restart that fails, of those after a run that was stopped at this call.
fn first_call(case: Case, call: u64) -> u64 {
    call.checked_rem(case.every).unwrap_or(0).saturating_add(1)
}

// Stops the restarts of what is left on the disk at their calls, one in so many of them. Each leaves the same. How many
// calls failed.
fn stop_restarts<M: StoreMemory>(
    rt: &impl Abort,
    memory: M,
    disk: &mut Disk,
    case: Case,
    call: u64,
    left: &Contents,
) -> Result<u64, Error> {
    let mut used = disk.blank()?;
    let mut restart_call = first_call(case, call);
    for calls in 0..CALLS {
        let stops = held_at_last(rt, memory, used.made_as(disk)?, case, restart_call);
        let (held, stopped, left_over) = stops;
        used = left_over;
        claim_at(rt, held == *left, "the same after call", call);
        if !stopped {
            drop(used);
            return Ok(calls);
        }
        restart_call = restart_call.saturating_add(case.every);
    }
    drop(used);
    rt.panic("more calls of a restart")
}

// A restart makes more writes and syncs than these.
const RESTART_CALLS: u64 = 20;

// Stops a run at this call, and the restarts after it at theirs.
fn stop_at<M: StoreMemory>(
    rt: &impl Abort,
    memory: M,
    alloc: Global,
    whole: &Whole<'_>,
    case: Case,
    call: u64,
) -> Result<Stopped, Error> {
    let (told, mut disk) = stop_run(rt, memory, alloc, whole, case, call)?;
    let copy = disk.blank()?.made_as(&mut disk)?;
    let (left, _, used) = held_at_last(rt, memory, copy, case, 0);
    drop(used);
    let calls = stop_restarts(rt, memory, &mut disk, case, call, &left)?;
    drop(disk);
    let met = calls.saturating_mul(case.every);
    claim_at(rt, met > RESTART_CALLS, "calls of a restart:", met);
    Ok(Stopped {
        safe: told.safe,
        left,
        failed: told.failed,
    })
}

// What is left is what the store held as all was told to be safe, with all that was told to be so, and not less than a
// stop before left. Where nothing failed it is all.
fn may_be_left(given: &[Contents], stopped: &Stopped, last: u64) -> bool {
    let left = &stopped.left;
    given.contains(left)
        && stopped.safe <= left.last
        && last <= left.last
        && (stopped.failed || given.last() == Some(left))
}

// Stops a run at each of those calls in turn, and looks at what is left.
fn stop_at_each<M: StoreMemory>(
    rt: &impl Abort,
    memory: M,
    alloc: Global,
    whole: &Whole<'_>,
    case: Case,
) -> Result<(), Error> {
    let mut last: u64 = 0;
    for call in 1..CALLS {
        let stopped = stop_at(rt, memory, alloc, whole, case, call)?;
        claim_at(
            rt,
            may_be_left(&whole.given, &stopped, last),
            "what is left at call",
            call,
        );
        if !stopped.failed {
            return Ok(());
        }
        last = stopped.left.last;
    }
    rt.panic("more calls")
}

/// Stops a run of these requests so.
pub(crate) fn stop_in_each<M: StoreMemory>(
    rt: &impl Abort,
    memory: M,
    alloc: Global,
    events: &[Event],
    case: Case,
) -> Result<(), Error> {
    let whole = whole_by_new(rt, memory, alloc, events)?;
    let moments = whole.given.len();
    let stopped = stop_at_each(rt, memory, alloc, &whole, case);
    forget(whole);
    claim(rt, moments == 5, "five moments at which all is safe");
    stopped
}

// Each write and sync of a run fails in turn, and after each of them each write and sync of a restart, and again of the
// one after it. This becomes then of what is not synced.
fn stop_each(rt: &impl Abort, alloc: Global, fate: Fate) {
    let case = Case {
        which: Which::WritesAndSyncs,
        fate,
        every: 1,
    };
    do_all(rt, alloc, &[(SCRIPT, Job::Stop(case))]);
}

// What is left after each stop, and after stops of the restarts after it, is what was given as all was told to be safe;
// failures are told, and no answer is wanting. A test has a minute, so each fate has one of its own.

#[test]
fn stops_that_leave_what_was_synced(rt: HostRuntime) {
    stop_each(&rt, rt.alloc(), Fate::Old);
}

#[test]
fn stops_that_leave_zeros(rt: HostRuntime) {
    stop_each(&rt, rt.alloc(), Fate::Zero);
}

#[test]
fn stops_that_leave_what_was_written(rt: HostRuntime) {
    stop_each(&rt, rt.alloc(), Fate::New);
}

#[test]
fn stops_that_leave_open_gates(rt: HostRuntime) {
    stop_each(&rt, rt.alloc(), Fate::Gate);
}

#[test]
fn stops_that_leave_junk(rt: HostRuntime) {
    stop_each(&rt, rt.alloc(), Fate::Junk);
}

// Each call fails in turn, reads too, and after it one in 16 of a restart: over all of them each.
#[test]
fn each_failure(rt: HostRuntime) {
    let case = Case {
        which: Which::All,
        fate: Fate::Old,
        every: 16,
    };
    do_all(&rt, rt.alloc(), &[(SCRIPT, Job::Stop(case))]);
}
