// Memory is refused to a store and its seat, each allocation in turn. What was refused is asked once more, and each
// answer is as where nothing is refused.
use crate::claims::{claim, claim_at};
use crate::found::formatted;
use crate::play::Turn;
use crate::requests::{Answer, Kind, Request};
use crate::soloist::{Played, play};
use records::{Error, Geometry};
use std::alloc::Global;
use std::mem::forget;
use std::process::Abort;
use std::sync::Wait;
use test_memory::Refusing;

// How often a run is played at most.
const PLAYS: u64 = 2_000;

// The slots of the first three places, all on the first page.
const FIRST: u16 = 0;

const SECOND: u16 = 1;

const THIRD: u16 = 2;

// An index is created; rows are inserted and changed, and taken back; others are kept. The index is dropped, and
// another one is created, which has entries of the rows that come then. An insertion makes two records, a change of a
// key three, a deletion two; to take one back takes as many. So many records don't fit the first block of the queue.
static STEPS: [(Request, Answer); 20] = [
    (Request::Create, Answer::Written(1, None)),
    (Request::Begin, Answer::Begun(1)),
    (
        Request::Change(Kind::Insert(b"ant")),
        Answer::Changed(FIRST),
    ),
    (
        Request::Change(Kind::Insert(b"bee")),
        Answer::Changed(SECOND),
    ),
    (
        Request::Change(Kind::Update(b"cat")),
        Answer::Changed(SECOND),
    ),
    (Request::Abort, Answer::Ended),
    (Request::Begin, Answer::Begun(2)),
    (
        Request::Change(Kind::Insert(b"dog")),
        Answer::Changed(FIRST),
    ),
    (
        Request::Change(Kind::Update(b"eel")),
        Answer::Changed(FIRST),
    ),
    (Request::Commit, Answer::Written(22, Some(1))),
    (Request::Drop, Answer::Written(23, None)),
    (Request::Create, Answer::Written(24, None)),
    (Request::Begin, Answer::Begun(3)),
    (
        Request::Change(Kind::Insert(b"fox")),
        Answer::Changed(SECOND),
    ),
    (
        Request::Change(Kind::Insert(b"gnu")),
        Answer::Changed(THIRD),
    ),
    (Request::Change(Kind::Delete), Answer::Changed(THIRD)),
    (Request::Commit, Answer::Written(31, Some(2))),
    (Request::Begin, Answer::Begun(4)),
    (
        Request::Change(Kind::Insert(b"hen")),
        Answer::Changed(THIRD),
    ),
    (Request::Commit, Answer::Written(34, Some(3))),
];

// A row is put, and another one is changed, and one is deleted, each in a transaction of its own.
static AT_ONCE: [(Request, Answer); 6] = [
    (Request::Create, Answer::Written(1, None)),
    (
        Request::AtOnce(Kind::Insert(b"ant")),
        Answer::Changed(FIRST),
    ),
    (
        Request::AtOnce(Kind::Insert(b"bee")),
        Answer::Changed(SECOND),
    ),
    (Request::AtOnce(Kind::Update(b"cat")), Answer::Ended),
    (
        Request::AtOnce(Kind::Insert(b"dog")),
        Answer::Changed(THIRD),
    ),
    (Request::AtOnce(Kind::Delete), Answer::Ended),
];

// Lets a seat do that on a disk with a new store, whose memory this is.
fn play_on<R: Wait>(
    rt: &R,
    alloc: Global,
    memory: &Refusing<Global>,
    turn: Turn<'_>,
) -> Result<Played, Error> {
    let disk = formatted(alloc, Geometry::new(2, 64, 16)?, 4_096)?;
    play(rt, memory, disk, memory, turn)
}

// Whether all is as it should be where this allocation is refused, and how many were.
fn play_short<R: Wait>(
    rt: &R,
    alloc: Global,
    steps: &[(Request, Answer)],
    before: u64,
) -> (bool, u64) {
    let memory = Refusing::new(alloc, before);
    let played = play_on(rt, alloc, &memory, Turn::Asks(steps));
    let refused = memory.refused();
    forget(memory);
    (matches!(played, Ok(Played { right: true, .. })), refused)
}

// Refuses each allocation in turn. How many there are; none where an answer isn't right.
fn refuse_each<R: Wait>(rt: &R, alloc: Global, steps: &[(Request, Answer)]) -> u64 {
    for before in 0..PLAYS {
        let (right, refused) = play_short(rt, alloc, steps, before);
        if !right {
            return 0;
        }
        if refused == 0 {
            return before;
        }
    }
    0
}

// Whether look-ups push what was refused.
fn look_behind<R: Wait>(rt: &R, alloc: Global) -> bool {
    let memory = Refusing::new(alloc, u64::MAX);
    let played = play_on(rt, alloc, &memory, Turn::Looks);
    let refused = memory.refused();
    forget(memory);
    refused > 2
        && matches!(
            played,
            Ok(Played {
                right: true,
                finished: true
            })
        )
}

// Refuses each allocation to a seat. Behind a record that the queue refused, `get`, `find` and `life` push it, each in
// its turn, once memory is back. What makes no step of the core takes no memory. What a crash leaves behind the end,
// clauses say (`closed` of `finish`).
fn refuse_and_look<R: Wait + Abort>(rt: &R, alloc: Global) {
    let by_steps = refuse_each(rt, alloc, &STEPS);
    claim_at(rt, by_steps > 25, "answers, and allocations:", by_steps);
    let at_once = refuse_each(rt, alloc, &AT_ONCE);
    claim_at(rt, at_once > 10, "answers, and allocations:", at_once);
    claim(rt, look_behind(rt, alloc), "look-ups");
}

#[test]
fn memory_is_refused_to_a_seat(rt: HostRuntime) {
    refuse_and_look(&rt, rt.alloc());
}
