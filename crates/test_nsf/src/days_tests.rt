// A store that lives through days.
use crate::claims::claim;
use crate::one_thread::device_of;
use headline::{Day, Lived, Mortal, NotLived, live_through};
use model::Life;
use nsf_core::Core;
use records::{Error, Geometry, Key, Rid};
use sector_device::MemDisk;
use std::alloc::{Allocator, Global};
use test_store::requests;

/// A day on which the requests of this script are made.
pub(crate) fn day(alloc: Global, script: &str, within: bool) -> Result<Day<Global>, Error> {
    let events = requests(alloc, script)?;
    Ok(Day {
        requests: events,
        within,
    })
}

/// Lives through the days: the one call of `live_through`, which promises much.
pub(crate) fn live_days<D: Mortal, A: Allocator + Copy>(
    alloc: A,
    device: D,
    geometry: Geometry,
    days: &[Day<A>],
    build: bool,
) -> Result<Lived<D, A>, NotLived<Error, D, A>> {
    live_through(alloc, device, geometry, days, build)
}

// What is asked for on each day, and whether it ends within. The first day's commit is flushed, the second day's isn't,
// and the third day puts its row there. The last one ends within its opening.
static DAYS: [(&str, bool); 4] = [
    (
        "begin\ninsert 1 =ant =\nstep 1\ncommit 1\ncreate\nflush\n",
        false,
    ),
    ("begin\ninsert 1 =bee =\nstep 1\ncommit 1\n", true),
    ("begin\ninsert 1 =cat =\nstep 1\ncommit 1\nflush\n", false),
    ("", true),
];

// A key, and the slot of its row on the only page behind them, if there is one.
pub(crate) type Place = (&'static [u8], Option<u16>);

static PLACES: [Place; 3] = [(b"ant", Some(0)), (b"bee", None), (b"cat", Some(1))];

fn days_of(alloc: Global, scripts: &[(&str, bool)]) -> Result<Vec<Day<Global>>, Error> {
    let mut days = Vec::new(alloc);
    for (script, within) in scripts {
        days.push(day(alloc, *script, *within)?)?;
    }
    Ok(days)
}

// The slot of the one place, on the only page; none where there is no place. More places are told as a slot that no
// page has.
fn slot_of(places: &[Rid]) -> Option<u16> {
    match places {
        [] => None,
        [rid] => Some(rid.slot),
        _ => Some(u16::MAX),
    }
}

fn is_placed(core: &Core<Global>, key: &[u8], slot: Option<u16>) -> Result<bool, Error> {
    let places = core.find(Key::new(key)?)?;
    let is_so = slot_of(&places) == slot;
    drop(places);
    Ok(is_so)
}

/// Whether the index is complete, and the rows lie in their places.
pub(crate) fn are_placed(core: &Core<Global>, places: &[Place]) -> Result<bool, Error> {
    for (key, slot) in places {
        if !is_placed(core, *key, *slot)? {
            return Ok(false);
        }
    }
    Ok(core.life() == Life::Complete)
}

// Whether they do so behind the days, once the index is built.
fn are_found<D: Mortal>(
    alloc: Global,
    device: D,
    geometry: Geometry,
    days: &[Day<Global>],
) -> Result<bool, Error> {
    match live_days(alloc, device, geometry, days, true) {
        Ok(lived) => {
            let Lived {
                answers,
                engine,
                unbuilt,
            } = lived;
            drop(answers);
            let are_placed = are_placed(engine.core(), &PLACES);
            drop(device_of(engine));
            Ok(are_placed? && unbuilt.is_none())
        }
        Err(refusal) => Err(refusal.error),
    }
}

// Whether they do so on a disk in memory.
fn are_found_in_memory(alloc: Global) -> Result<bool, Error> {
    let geometry = Geometry::new(1, 64, 4)?;
    let days = days_of(alloc, &DAYS)?;
    let disk = MemDisk::new(alloc, geometry.sectors(), 4_096)?;
    let found = are_found(alloc, disk, geometry, &days);
    drop(days);
    found
}

// The index that is built in the end has the pairs of both rows that were kept. Of a day that ends within its opening
// nothing is answered, and nothing changes.
#[test]
fn four_days_and_a_build(rt: HostRuntime) -> Result<(), Error> {
    let found = are_found_in_memory(rt.alloc())?;
    claim(&rt, found, "what is found behind four days");
    Ok(())
}
