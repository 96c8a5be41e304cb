// Memory is refused to a store, each allocation in turn. What was refused for want of memory is asked again, and every
// other reply is that of a store to which nothing was refused.
use crate::answer::Answer;
use crate::claims::{claim, claim_at};
use crate::contents::Contents;
use crate::disk::Disk;
use crate::jobs::{Job, Task, do_all};
use crate::opened::{held_on, open};
use crate::store::{OpenStore, StoreMemory};
use records::Error;
use restart::Event;
use sector_device::Fate;
use std::alloc::Global;
use std::mem::forget;
use std::process::Abort;
use test_store::Script;

// How often a run is played at most.
const PLAYS: u64 = 2_000;

/// Over so many pages at least so many requests are made again.
#[derive(Clone, Copy)]
pub(crate) struct Wanted {
    pages: u32,
    least: u32,
}

// The answer, and whether it was to a second request, since memory was refused to the first.
fn ask_again<M: StoreMemory>(
    rt: &impl Abort,
    memory: M,
    store: &mut M::Store,
    event: &Event,
) -> (Answer, bool) {
    let before = memory.refused();
    let answer = store.ask(event);
    if !answer.is_want_of_memory() {
        return (answer, false);
    }
    claim(rt, before < memory.refused(), "that memory was refused");
    (store.ask(event), true)
}

// What a play of requests gave: the answers, how many requests were made again, what a crash leaves then, and how many
// allocations were refused.
#[derive(Drop)]
struct Played {
    answers: Vec<Answer>,
    again: u32,
    left: Contents,
    refused: u64,
}

// Keeps the answers to the requests. How many were made again.
fn answer_all<M: StoreMemory>(
    rt: &impl Abort,
    memory: M,
    store: &mut M::Store,
    events: &[Event],
    answers: &mut Vec<Answer>,
) -> Result<u32, Error> {
    let mut again: u32 = 0;
    for event in events {
        let (answer, is_again) = ask_again(rt, memory, store, event);
        answers.push(answer)?;
        again = again.saturating_add(u32::from(is_again));
    }
    Ok(again)
}

// Plays the requests on the disk: how many were made again, and what a crash leaves then.
fn play_on<M: StoreMemory>(
    rt: &impl Abort,
    memory: M,
    disk: Disk,
    events: &[Event],
    answers: &mut Vec<Answer>,
) -> Result<(u32, Contents), Error> {
    let mut store = open(rt, memory, disk)?;
    let again = answer_all(rt, memory, &mut store, events, answers);
    let left = held_on(rt, memory, store.close().crash(Fate::Junk));
    Ok((again?, left?))
}

// Plays the requests over a new store of so many pages, where the allocation is refused that so many come before.
fn play<M: StoreMemory>(
    rt: &impl Abort,
    memory: M,
    alloc: Global,
    events: &[Event],
    (pages, before): (u32, u64),
) -> Result<Played, Error> {
    let disk = Disk::formatted(alloc, pages, 12)?;
    let was = memory.refused();
    memory.refuse_after(before);
    let mut answers = Vec::new(alloc);
    let played = play_on(rt, memory, disk, events, &mut answers);
    match played {
        Ok((again, left)) => Ok(Played {
            answers,
            again,
            left,
            refused: memory.refused().saturating_sub(was),
        }),
        Err(error) => {
            drop(answers);
            Err(error)
        }
    }
}

// Plays the requests where this allocation is refused: how many requests were made again, and how many allocations were
// refused. All else is as it was played with none.
fn play_short<M: StoreMemory>(
    rt: &impl Abort,
    memory: M,
    alloc: Global,
    events: &[Event],
    (pages, before): (u32, u64),
    whole: &Played,
) -> Result<(u32, u64), Error> {
    let played = play(rt, memory, alloc, events, (pages, before))?;
    let is_same = played.answers == whole.answers && played.left == whole.left;
    let told = (played.again, played.refused);
    forget(played);
    claim_at(rt, is_same, "the same without allocation", before);
    Ok(told)
}

// Refuses each allocation in turn, and at last none. How many requests were made again.
fn refuse_until_none<M: StoreMemory>(
    rt: &impl Abort,
    memory: M,
    alloc: Global,
    events: &[Event],
    pages: u32,
    whole: &Played,
) -> Result<u32, Error> {
    let mut requests: u32 = 0;
    for before in 0..PLAYS {
        let (again, refused) = play_short(rt, memory, alloc, events, (pages, before), whole)?;
        if refused == 0 {
            return Ok(requests);
        }
        requests = requests.saturating_add(again);
    }
    rt.panic("more allocations")
}

/// Refuses each allocation of a play of these requests in turn.
pub(crate) fn refuse_each<M: StoreMemory>(
    rt: &impl Abort,
    memory: M,
    alloc: Global,
    events: &[Event],
    wanted: Wanted,
) -> Result<(), Error> {
    let whole = play(rt, memory, alloc, events, (wanted.pages, u64::MAX))?;
    let again = refuse_until_none(rt, memory, alloc, events, wanted.pages, &whole);
    forget(whole);
    let requests = again?;
    claim_at(
        rt,
        wanted.least <= requests,
        "made again:",
        u64::from(requests),
    );
    Ok(())
}

// A row is deleted behind the scan of a build.
const DELETED: &str = "begin\ninsert 1 =a =\ninsert 1 =b =\ncommit 1\ncreate\nbuild\nbegin\n\
    delete 2 0.1\nstep 2\ncommit 2\nflush\nbuild 3\nfind =a\nget 0.0\ndump\nflush\n\
    image\nimage\nimage\nimage\nimage\n";

// An insertion is taken back whose pair the builder has scanned.
const TAKEN_BACK: &str = "create\nbegin\ninsert 1 =k =\nbuild\nundo 1\nundo 1\nundo 1\nend 1\n\
    build 2\nflush\n";

// An update is taken back while the index is built.
const UPDATED: &str = "begin\ninsert 1 =p =1\ncommit 1\ncreate\nbegin\nupdate 2 0.0 =q =2\n\
    begin\ndelete 3 0.0\nstep 2\nundo 2\nundo 2\nundo 2\nundo 2\nend 2\nend 3\nflush\n";

// Behind the insertion of 64 rows: a row is deleted behind the scan, its entry is taken out at the checkpoint, and
// another deletion comes to no end.
const OVER_TWO_PAGES: &str = "commit 1\ncreate\nbuild 2\nbegin\ndelete 2 1.0\nstep 2\ncommit 2\n\
    clean 2\nflush\nbuild 65\nclean 64\nbegin\ndelete 3 0.0\nclean 2\nflush\n";

// Transaction 1 inserts 64 rows.
const ROWS_64: &str = "begin\n\
    insert 1 :00 =\ninsert 1 :01 =\ninsert 1 :02 =\ninsert 1 :03 =\ninsert 1 :04 =\ninsert 1 :05 =\n\
    insert 1 :06 =\ninsert 1 :07 =\ninsert 1 :08 =\ninsert 1 :09 =\ninsert 1 :0a =\ninsert 1 :0b =\n\
    insert 1 :0c =\ninsert 1 :0d =\ninsert 1 :0e =\ninsert 1 :0f =\ninsert 1 :10 =\ninsert 1 :11 =\n\
    insert 1 :12 =\ninsert 1 :13 =\ninsert 1 :14 =\ninsert 1 :15 =\ninsert 1 :16 =\ninsert 1 :17 =\n\
    insert 1 :18 =\ninsert 1 :19 =\ninsert 1 :1a =\ninsert 1 :1b =\ninsert 1 :1c =\ninsert 1 :1d =\n\
    insert 1 :1e =\ninsert 1 :1f =\ninsert 1 :20 =\ninsert 1 :21 =\ninsert 1 :22 =\ninsert 1 :23 =\n\
    insert 1 :24 =\ninsert 1 :25 =\ninsert 1 :26 =\ninsert 1 :27 =\ninsert 1 :28 =\ninsert 1 :29 =\n\
    insert 1 :2a =\ninsert 1 :2b =\ninsert 1 :2c =\ninsert 1 :2d =\ninsert 1 :2e =\ninsert 1 :2f =\n\
    insert 1 :30 =\ninsert 1 :31 =\ninsert 1 :32 =\ninsert 1 :33 =\ninsert 1 :34 =\ninsert 1 :35 =\n\
    insert 1 :36 =\ninsert 1 :37 =\ninsert 1 :38 =\ninsert 1 :39 =\ninsert 1 :3a =\ninsert 1 :3b =\n\
    insert 1 :3c =\ninsert 1 :3d =\ninsert 1 :3e =\ninsert 1 :3f =\n";

// Each case is a script over so many pages, of which at least so many requests are made again.
static TASKS: [Task; 4] = [
    (
        &[(1, DELETED)],
        Job::Refuse(Wanted {
            pages: 1,
            least: 40,
        }),
    ),
    (
        &[(1, TAKEN_BACK)],
        Job::Refuse(Wanted {
            pages: 1,
            least: 25,
        }),
    ),
    (
        &[(1, UPDATED)],
        Job::Refuse(Wanted {
            pages: 1,
            least: 30,
        }),
    ),
    (
        &[(1, ROWS_64), (1, OVER_TWO_PAGES)],
        Job::Refuse(Wanted {
            pages: 2,
            least: 30,
        }),
    ),
];

#[test]
fn each_allocation_is_refused(rt: HostRuntime) {
    do_all(&rt, rt.alloc(), &TASKS);
}
