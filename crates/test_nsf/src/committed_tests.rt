//! What is committed of a store, beside what is there.
use crate::claims::claim;
use crate::one_thread::{ask, device_of, filled, opened};
use nsf::{
    Core, Engine, Error, Event, Key, KeyRange, MemDisk, Rid, find_committed, get_committed,
    scan_committed,
};
use std::alloc::Global;
use test_store::requests;

// What is committed: whether the first place has a row, how many have each of two keys, and how many pairs there are.
type Seen = (bool, usize, usize, usize);

const BEFORE: Seen = (true, 1, 0, 1);

const BEHIND: Seen = (false, 0, 1, 1);

// The first place.
const FIRST: Rid = Rid { page: 0, slot: 0 };

// The one row goes, and another comes, in one transaction.
const CHANGE: &str = "begin\ndelete 1 0.0\nstep 1\ninsert 1 =bee =2\nstep 1\ncommit 1\n";

// How many places have the key.
fn count_of(alloc: Global, core: &Core<Global>, key: &[u8]) -> Result<usize, Error> {
    let places = find_committed(alloc, core, Key::new(key)?)?;
    let count = places.len();
    drop(places);
    Ok(count)
}

// How many pairs there are.
fn count_pairs(alloc: Global, core: &Core<Global>) -> Result<usize, Error> {
    let page = scan_committed(alloc, core, &KeyRange::all(), None, 10)?;
    let count = page.pairs.len();
    drop(page);
    Ok(count)
}

fn seen_in(alloc: Global, core: &Core<Global>) -> Result<Seen, Error> {
    let has_row = get_committed(core, FIRST).is_some();
    let ants = count_of(alloc, core, b"ant")?;
    let bees = count_of(alloc, core, b"bee")?;
    Ok((has_row, ants, bees, count_pairs(alloc, core)?))
}

// Whether that is committed once the request is served.
fn is_seen(
    alloc: Global,
    engine: &mut Engine<MemDisk<Global>, Global>,
    event: &Event,
    wanted: Seen,
) -> Result<bool, Error> {
    ask(engine, *event)?;
    Ok(seen_in(alloc, engine.core())? == wanted)
}

// Whether the last request alone changes what is committed.
fn are_seen(
    alloc: Global,
    engine: &mut Engine<MemDisk<Global>, Global>,
    events: &[Event],
) -> Result<bool, Error> {
    let Some((last, others)) = events.split_last() else {
        return Ok(false);
    };
    for event in others {
        if !is_seen(alloc, engine, event, BEFORE)? {
            return Ok(false);
        }
    }
    is_seen(alloc, engine, last, BEHIND)
}

fn is_so(alloc: Global, events: &[Event]) -> Result<bool, Error> {
    match opened(alloc, filled(alloc)?) {
        Ok(mut engine) => {
            let seen = are_seen(alloc, &mut engine, events);
            drop(device_of(engine));
            seen
        }
        Err((error, _)) => Err(error),
    }
}

// Until the commit the old row is committed, and the new one isn't.
#[test]
fn what_a_transaction_changes_is_read_once_it_has_committed(rt: HostRuntime) -> Result<(), Error> {
    let events = requests(rt.alloc(), CHANGE)?;
    let is_so = is_so(rt.alloc(), &events);
    drop(events);
    claim(&rt, is_so?, "what is committed");
    Ok(())
}
