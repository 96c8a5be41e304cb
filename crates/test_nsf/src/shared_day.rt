//! A store that lives through a day of requests and a day of clients.
use crate::days_tests::day;
use crate::many_threads::{Put, clients_of};
use crate::one_thread::{device_of, has_each};
use crate::recorded::{RecordedDisk, Stop};
use headline::{End, LivedBeside, SharedDay, live_beside};
use nsf::{Error, Geometry, Life, OpenError};
use std::alloc::Global;
use std::sync::Wait;
use std::thread::Threads;

/// The keys of the rows that are put.
pub const KEYS: [&[u8]; 3] = [b"ant", b"bee", b"cat"];

// What is asked for on the first day.
const FIRST: &str = "begin\ninsert 1 =ant =\nstep 1\ncommit 1\ncreate\nflush\n";

// A client for each of the other rows.
fn second_day(alloc: Global, end: End) -> Result<SharedDay<Put>, Error> {
    Ok(SharedDay {
        clients: clients_of(alloc, &KEYS[1..])?,
        end,
    })
}

fn new_disk(alloc: Global, geometry: Geometry, stop: Stop) -> Result<RecordedDisk<Global>, Error> {
    Ok(RecordedDisk::new(alloc, geometry.sectors(), 4_096, stop)?)
}

// Whether the row of each key may be lacking, as the day ends so: the first is from the day before, and the others were
// each put by a client.
fn may_lack(end: End) -> [bool; 3] {
    match end {
        End::Behind | End::Closing => [false, false, false],
        End::Since(client) => [false, client != 0, client != 1],
        End::Opening => [false, true, true],
    }
}

// Whether the index is complete and each row is found, if each client has put its row and all was written.
fn is_found(
    lived: &LivedBeside<Put, RecordedDisk<Global>>,
    may_lack: &[bool],
) -> Result<bool, OpenError> {
    lived.shared.written?;
    for client in &lived.shared.clients {
        client.done?;
    }
    match lived.unbuilt {
        Some(error) => Err(OpenError::Refused(error)),
        None => {
            let is_complete = lived.engine.core().life() == Life::Complete;
            Ok(is_complete && has_each(&lived.engine, &KEYS, may_lack)?)
        }
    }
}

// Whether each row is found, and whether the disk stopped at the last of its moments.
fn taken_apart(
    lived: LivedBeside<Put, RecordedDisk<Global>>,
    end: End,
) -> (Result<bool, OpenError>, bool) {
    let found = is_found(&lived, &may_lack(end));
    let LivedBeside {
        answers,
        shared,
        engine,
        ..
    } = lived;
    drop(answers);
    drop(shared);
    let disk = device_of(engine);
    let is_last = disk.is_last;
    drop(disk);
    (found, is_last)
}

/// Whether each row is found once behind a day of requests and a day of two clients that await their acknowledgements,
/// once the index is built to its end; or no more than once, where the clients may not have put it. And whether the
/// disk stopped at the last of its moments.
pub fn live<R: Threads + Wait + Sync>(
    rt: &R,
    alloc: Global,
    end: End,
    stop: Stop,
) -> Result<(bool, bool), OpenError> {
    let geometry = Geometry::new(1, 64, 4)?;
    let days = [day(alloc, FIRST, false)?];
    let last = second_day(alloc, end)?;
    let disk = new_disk(alloc, geometry, stop)?;
    match live_beside(rt, alloc, disk, geometry, &days, last, true) {
        Ok(lived) => {
            let (found, is_last) = taken_apart(lived, end);
            Ok((found?, is_last))
        }
        Err(refusal) => Err(refusal.error),
    }
}
