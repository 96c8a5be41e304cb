//! The examples of README.
use crate::busy::serve_the_busy;
use crate::claims::{claim, claim_at};
use crate::ended::{is_kept_by_the_end, is_moved};
use crate::full_index::serve_a_crowd;
use crate::led::put_led;
use crate::many_threads::put_two;
use crate::one_thread::{filled, holds_each};
use crate::recorded::Stop;
use crate::seen::is_seen_at_once;
use crate::shared_day::{KEYS, live};
use headline::End;
use nsf::{Error, Fate, OpenError};
use std::alloc::Global;
use std::process::Abort;
use std::sync::Wait;
use std::thread::Threads;

// One thread leaves a store, and threads go on with it behind a crash. Whether each row is found once behind another.
fn is_each_found<R: Threads + Wait + Sync>(rt: &R, alloc: Global) -> Result<bool, OpenError> {
    let mut disk = filled(alloc)?;
    disk.crash(&[Fate::Junk]);
    let mut disk = put_two(rt, alloc, disk)?;
    disk.crash(&[Fate::Junk]);
    Ok(holds_each(alloc, disk, &KEYS)?)
}

#[test]
fn threads_go_on_with_what_one_thread_left(rt: HostRuntime) -> Result<(), OpenError> {
    let found = is_each_found(&rt, rt.alloc())?;
    claim(&rt, found, "each row once");
    Ok(())
}

// What a seat does another one sees at once, whichever call it reads by.
#[test]
fn what_another_seat_does(rt: HostRuntime) {
    let seen = is_seen_at_once(&rt, rt.alloc());
    claim(&rt, matches!(seen, Ok(true)), "what another seat sees");
}

// What a seat put is found after an end that is followed by a loss of power; and a store of version 1 lives on.
#[test]
fn what_is_opened_again(rt: HostRuntime) {
    let kept = is_kept_by_the_end(&rt, rt.alloc());
    claim(&rt, matches!(kept, Ok(true)), "a row after the end");
    let moved = is_moved(rt.alloc());
    claim(&rt, matches!(moved, Ok(true)), "a store of version 1");
}

// Threads write what they wait for themselves, over a store with a row. Whether each row is found once behind a crash.
fn is_each_found_led<R: Threads + Wait + Sync>(rt: &R, alloc: Global) -> Result<bool, OpenError> {
    let disk = filled(alloc)?;
    let mut disk = put_led(rt, alloc, disk, &[b"bee", b"cat"])?;
    disk.crash(&[Fate::Junk]);
    Ok(holds_each(alloc, disk, &KEYS)?)
}

#[test]
fn threads_write_what_they_wait_for(rt: HostRuntime) -> Result<(), OpenError> {
    let found = is_each_found_led(&rt, rt.alloc())?;
    claim(&rt, found, "each row once");
    Ok(())
}

// A client that waits for an index is told why the builder has ended, and that is what the run ends with.
#[test]
fn a_client_is_told_that_the_index_is_full(rt: HostRuntime) -> Result<(), OpenError> {
    let (told, built) = serve_a_crowd(&rt, rt.alloc())?;
    let full = Some(Error::IndexFull);
    claim(&rt, told == full && built == full, "a full index");
    Ok(())
}

// An index is created and dropped where seats have a transaction nearly all the time, and nobody is refused anything.
#[test]
fn an_index_is_created_beside_busy_seats(rt: HostRuntime) -> Result<(), OpenError> {
    let turns = serve_the_busy(&rt, rt.alloc())?;
    claim(&rt, turns > 0, "turns of each writer");
    Ok(())
}

// More than the moments of a day of clients.
const MANY: u64 = 1_000;

// Stops a day of clients at each moment that it may stop at.
fn stop_at_each<R: Threads + Wait + Sync + Abort>(
    rt: &R,
    alloc: Global,
    end: End,
) -> Result<(), OpenError> {
    for behind in 0..MANY {
        let fates = [Fate::Junk, Fate::New];
        let (found, is_last) = live(rt, alloc, end, Stop { behind, fates })?;
        claim_at(rt, found, "what is found behind moment", behind);
        if is_last || end == End::Behind {
            return Ok(());
        }
    }
    rt.panic("fewer moments")
}

// How the day may end.
static ENDS: [End; 5] = [
    End::Behind,
    End::Closing,
    End::Since(0),
    End::Since(1),
    End::Opening,
];

// A day of requests, and a day of clients behind it, each of which awaits the acknowledgement of a row. That stops
// behind all that was done, as the rest is written out, at any moment since one of them has read a mark, or at any
// moment at all; then the index is built.
#[test]
fn a_day_of_clients_behind_one_of_requests(rt: HostRuntime) -> Result<(), OpenError> {
    for end in &ENDS {
        stop_at_each(&rt, rt.alloc(), *end)?;
    }
    Ok(())
}
