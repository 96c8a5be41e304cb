// A store is stopped at each moment of each request of a day, and of the day's opening.
use crate::claims::claim_at;
use crate::days_tests::live_days;
use crate::found::is_found;
use crate::one_thread::{device_of, opened};
use crate::recorded::{RecordedDisk, Stop};
use crate::told::Told;
use headline::{Answer, Day, Mortal, NotLived};
use records::{Error, Geometry};
use restart::{Engine, Event, Reply};
use sector_device::Fate;
use std::alloc::{AllocError, Allocator, Global};
use std::process::Abort;
use test_memory::Refusing;
use test_store::requests;

// More than the moments of a request, or of an opening.
const MANY: u64 = 1_000;

// What becomes in turn of the sectors that are unsynced at a stop.
static FATES: [[Fate; 2]; 5] = [
    [Fate::New, Fate::Old],
    [Fate::Old, Fate::New],
    [Fate::Zero, Fate::New],
    [Fate::Junk, Fate::Zero],
    [Fate::Gate, Fate::Junk],
];

// A disk in memory makes so many allocations. The next one is that its record grows.
const DISK_ALLOCATIONS: u64 = 5;

// What befalls a store. So many writes and syncs are recorded since a stop, and then one fails. So many allocations
// come since the first day began, and then one is refused.
#[derive(Clone, Copy)]
struct Trouble {
    calls: usize,
    allocations: u64,
}

const NONE: Trouble = Trouble {
    calls: 512,
    allocations: u64::MAX,
};

// What is asked on a whole day, and then on one that ends within; and what befalls the store.
#[derive(Clone, Copy)]
struct Plan<'a> {
    first: &'a [Event],
    second: &'a [Event],
    trouble: Trouble,
}

// What was seen of a life: whether what is found is what was told, and whether a failure and a refusal were told.
#[derive(Clone, Copy)]
struct Seen {
    agrees: bool,
    failed: bool,
    refused: bool,
}

fn is_refused<A: Allocator>(replies: &[Reply<A>], error: Error) -> bool {
    for reply in replies {
        match reply {
            Reply::Refused(why) if *why == error => return true,
            _ => {}
        }
    }
    false
}

// Whether this was the answer to a request, or to a day.
fn is_answered<A: Allocator>(answers: &[Answer<A>], error: Error) -> bool {
    for answer in answers {
        let is = match answer {
            Ok(replies) => is_refused(replies, error),
            Err(why) => *why == error,
        };
        if is {
            return true;
        }
    }
    false
}

fn look<D: Mortal, A: Allocator + Copy>(
    alloc: Global,
    days: &[Day<A>],
    answers: &[Answer<A>],
    engine: &mut Engine<D, A>,
) -> Result<Seen, AllocError> {
    let mut told = Told::new(alloc, engine.core().last());
    let taken = told.take_days(days, answers);
    let agrees = is_found(engine, &told);
    drop(told);
    taken?;
    Ok(Seen {
        agrees,
        failed: is_answered(answers, Error::DeviceFailed),
        refused: is_answered(answers, Error::NoMemory),
    })
}

// The answers of the days, and the store behind them. Where its opening was refused it is opened once more.
fn lived<D: Mortal, A: Allocator + Copy>(
    memory: A,
    disk: D,
    geometry: Geometry,
    days: &[Day<A>],
) -> Result<(Vec<Answer<A>, A>, Engine<D, A>), Error> {
    match live_days(memory, disk, geometry, days, false) {
        Ok(lived) => Ok((lived.answers, lived.engine)),
        Err(refusal) => {
            let NotLived {
                answers,
                device,
                ..
            } = refusal;
            match opened(memory, device) {
                Ok(engine) => Ok((answers, engine)),
                Err((error, device)) => {
                    drop(device);
                    Err(error)
                }
            }
        }
    }
}

// Lives through the days, and looks at what is found. The disk is given back.
fn live<D: Mortal, A: Allocator + Copy>(
    alloc: Global,
    (memory, disk): (A, D),
    geometry: Geometry,
    days: &[Day<A>],
) -> Result<(Seen, D), Error> {
    let (answers, mut engine) = lived(memory, disk, geometry, days)?;
    let seen = look(alloc, days, &answers, &mut engine);
    drop(answers);
    let disk = device_of(engine);
    match seen {
        Ok(seen) => Ok((seen, disk)),
        Err(_) => {
            drop(disk);
            Err(Error::NoMemory)
        }
    }
}

fn day<A: Allocator + Copy>(
    alloc: A,
    events: &[Event],
    within: bool,
) -> Result<Day<A>, AllocError> {
    let mut requests = Vec::new(alloc);
    requests.extend_from_slice(events)?;
    Ok(Day { requests, within })
}

// Plays a life that is stopped there. What was seen of it, and whether that was the last moment.
fn play(alloc: Global, plan: Plan<'_>, stop: Stop) -> Result<(Seen, bool), Error> {
    let geometry = Geometry::new(1, 64, 4)?;
    let memory = Refusing::new(alloc, u64::MAX);
    let below = Refusing::new(alloc, DISK_ALLOCATIONS);
    let disk = RecordedDisk::new(&below, geometry.sectors(), plan.trouble.calls, stop)?;
    let days = [
        day(&memory, plan.first, false)?,
        day(&memory, plan.second, true)?,
    ];
    memory.refuse_after(plan.trouble.allocations);
    let (seen, disk) = live(alloc, (&memory, disk), geometry, &days)?;
    Ok((seen, disk.is_last))
}

// How many moments there were, how many lives, and in how many of these a failure or a refusal was told.
#[derive(Clone, Copy)]
struct Met {
    moments: u64,
    lives: u64,
    failed: u64,
    refused: u64,
}

fn one_more(met: Met, seen: Seen) -> Met {
    Met {
        moments: met.moments,
        lives: met.lives.saturating_add(1),
        failed: met.failed.saturating_add(u64::from(seen.failed)),
        refused: met.refused.saturating_add(u64::from(seen.refused)),
    }
}

// Plays lives that are stopped there, each with one of these fates. What was met with them, and whether that was the
// last moment.
fn stop_with_each(
    rt: &impl Abort,
    alloc: Global,
    (plan, fates): (Plan<'_>, &[[Fate; 2]]),
    behind: u64,
    mut met: Met,
) -> Result<(Met, bool), Error> {
    let mut is_last = true;
    for fates in fates {
        let stop = Stop {
            behind,
            fates: *fates,
        };
        let (seen, last) = play(alloc, plan, stop)?;
        claim_at(rt, seen.agrees, "what is found behind moment", behind);
        met = one_more(met, seen);
        is_last = last;
    }
    Ok((met, is_last))
}

// Stops at each moment of the last request, or of the opening where there is none.
fn stop_at_each(
    rt: &impl Abort,
    alloc: Global,
    (plan, fates): (Plan<'_>, &[[Fate; 2]]),
    met: Met,
) -> Result<Met, Error> {
    let mut all = met;
    for behind in 0..MANY {
        let (met, is_last) = stop_with_each(rt, alloc, (plan, fates), behind, all)?;
        all = met;
        all.moments = all.moments.saturating_add(1);
        if is_last {
            return Ok(all);
        }
    }
    rt.panic("fewer moments")
}

// Stops at each moment of the second day's opening, and of each of its requests.
fn stop_everywhere(
    rt: &impl Abort,
    alloc: Global,
    (plan, fates): (Plan<'_>, &[[Fate; 2]]),
) -> Result<Met, Error> {
    let mut met = Met {
        moments: 0,
        lives: 0,
        failed: 0,
        refused: 0,
    };
    for count in 0..=plan.second.len() {
        let second = &plan.second[..count];
        met = stop_at_each(rt, alloc, (Plan { second, ..plan }, fates), met)?;
    }
    Ok(met)
}

// Two rows are committed, and the index is created. All of it is safe.
const FIRST: &str = "begin\ninsert 1 =a =\ninsert 1 =b =\ncommit 1\ncreate\nbuild\nflush\n";

// A row is deleted behind the scan, and its deletion is flushed before its commit. An image is taken while a row is
// inserted. The index is built to its end and dropped, and another one is begun.
const SECOND: &str = "build\nbegin\ndelete 1 0.1\nstep 1\nflush\ncommit 1\nbuild 2\nimage\nbegin\n\
    insert 2 =c =1\nimage\nstep 2\ncommit 2\nimage\nimage\nbuild\nflush\ndrop\nflush\n\
    create\nbuild 2\nflush\n";

// A call fails as the gate of a group is opened, before the image becomes current; and memory is refused there. On a
// shorter day that comes later, in an opening, or not at all; and always behind the first day.
const FAILING: Trouble = Trouble { calls: 70, ..NONE };

const REFUSING: Trouble = Trouble {
    allocations: 58,
    ..NONE
};

// What befalls the store; whether each of the fates is played at a stop, or the first one alone; and how many moments
// there are at least, and lives in which a failure and a refusal are told.
type Case = (Trouble, bool, (u64, u64, u64));

static CASES: [Case; 3] = [
    (NONE, true, (139, 0, 0)),
    (FAILING, false, (80, 8, 0)),
    (REFUSING, false, (90, 0, 30)),
];

// Plays a case over these requests of two days.
fn play_case<'a>(
    rt: &impl Abort,
    alloc: Global,
    (first, second): (&'a [Event], &'a [Event]),
    case: &Case,
) -> Result<(), Error> {
    let (trouble, has_each, (moments, failed, refused)) = *case;
    let plan = Plan {
        first,
        second,
        trouble,
    };
    let fates = if has_each { &FATES[..] } else { &FATES[..1] };
    let met = stop_everywhere(rt, alloc, (plan, fates))?;
    claim_at(rt, moments <= met.moments, "moments:", met.moments);
    claim_at(rt, failed <= met.failed, "failures:", met.failed);
    claim_at(rt, refused <= met.refused, "refusals:", met.refused);
    Ok(())
}

#[test]
fn each_moment(rt: HostRuntime) -> Result<(), Error> {
    let first = requests(rt.alloc(), FIRST)?;
    let second = requests(rt.alloc(), SECOND)?;
    for case in &CASES {
        play_case(&rt, rt.alloc(), (first.as_slice(), second.as_slice()), case)?;
    }
    Ok(())
}
