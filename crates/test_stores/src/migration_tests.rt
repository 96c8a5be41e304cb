// A store of version 1 is moved to another disk.
use crate::answer::Answer;
use crate::claims::{claim, claim_at};
use crate::contents::Contents;
use crate::damage_tests::why_not_open;
use crate::disk::Disk;
use crate::jobs::{Job, Task};
use crate::opened::held_on;
use crate::store::{OpenStore, StoreMemory};
use model::Life;
use records::{Error, Mark, Rid};
use restart::{Event, MigrateError};
use sector_device::{Fate, Which};
use std::alloc::Global;
use std::process::Abort;
use test_store::{BUILDING_1, Edit, GROUP, SUPERBLOCK_1, Script};

// The sectors of the least store, in version 1 and in version 2.
const OLD_SECTORS: u64 = 1_118;

const SECTORS: u64 = 2_166;

// A group in the log.
const LOGGED: &[Edit<'_>] = &[SUPERBLOCK_1, (528, 0, b"\xa5"), (529, 0, GROUP)];

// The same, without its commit.
const UNFINISHED: &[Edit<'_>] = &[
    SUPERBLOCK_1,
    (528, 0, b"\xa5"),
    (529, 0, GROUP),
    (529, 0, b"\0\x01\0\x20"),
    (529, 36, &[0; 17]),
];

// The index that is built up to the row, where transaction 2 has put in the row of the entry that isn't marked yet.
const IMAGED_UNFINISHED: &[Edit<'_>] = &[
    SUPERBLOCK_1,
    (2, 0, b"\x01\x01\x03ant"),
    (2, 40, b"\x06\0\0\0\x02"),
    (3, 7, b"\x02\0\x01"),
    (4, 0, b"\x01\0\0\0\0\0\x01"),
    (4, 71, b"\x01\x01a"),
    (516, 64, b"\x01\x03ant"),
    (516, 90, b"\x01x"),
    (516, 128, b"\x01\x01a"),
    (524, 0, b"\x01a"),
    (524, 30, b"\x01\x01"),
    (524, 32, b"\x03ant"),
    (524, 63, b"\x01"),
];

// A disk with a store of version 1, synced.
fn old_disk(alloc: Global, edits: &[Edit<'_>]) -> Result<Disk, Error> {
    let disk = Disk::bare(alloc, OLD_SECTORS)?.edited(edits)?;
    Ok(disk.crash(Fate::New))
}

// An old disk with these sectors, and a new one of so many.
fn disks(alloc: Global, edits: &[Edit<'_>], sectors: u64) -> Result<(Disk, Disk), Error> {
    let old = old_disk(alloc, edits)?;
    match Disk::bare(alloc, sectors) {
        Ok(new) => Ok((old, new)),
        Err(error) => {
            drop(old);
            Err(error)
        }
    }
}

// What a moved store held, or why it wasn't moved.
type Held = Result<Contents, MigrateError>;

// Moves the store on the old disk to the new one, which comes back.
fn moved_to<M: StoreMemory>(memory: M, old: &mut Disk, new: Disk) -> (Held, Disk) {
    match memory.moved(old, new) {
        Ok(store) => {
            let held = store.contents();
            (Ok(held), store.close())
        }
        Err((error, disk)) => (Err(error), disk),
    }
}

// Moves the store with these sectors to a disk of so many. That the old disk is as before, a clause says (`kept` of
// `migrate`).
fn moved<M: StoreMemory>(
    memory: M,
    alloc: Global,
    edits: &[Edit<'_>],
    sectors: u64,
) -> Result<(Held, Disk), Error> {
    let (mut old, new) = disks(alloc, edits, sectors)?;
    let moved = moved_to(memory, &mut old, new);
    drop(old);
    Ok(moved)
}

// What a moved store holds: the number of its last record; whether there is a row at the first place; and whether an
// index is being built, whose first entry is marked and whose second one is the highest.
type Kind = (u64, bool, bool);

// Whether it is so.
fn is_building(held: &Contents) -> bool {
    let (first, second) = held.entries;
    let is_marked = matches!(first, Some((_, Mark::Marked)));
    match second {
        Some((live, Mark::Live)) => {
            let highest = Some(live);
            is_marked && held.count == 2 && held.life == Life::Building { highest }
        }
        _ => false,
    }
}

fn is_of_kind(held: &Contents, (last, has_row, has_index): Kind) -> bool {
    let is_indexed = if has_index {
        is_building(held)
    } else {
        held.life == Life::Absent && held.count == 0
    };
    held.last == last && held.rows.0.is_some() == has_row && held.rows.1.is_none() && is_indexed
}

// Moves a store with these sectors, and opens it again behind a crash. Whether it is of this kind, both times.
fn is_moved<M: StoreMemory>(
    rt: &impl Abort,
    memory: M,
    alloc: Global,
    edits: &[Edit<'_>],
    kind: Kind,
) -> Result<bool, Error> {
    let (held, disk) = moved(memory, alloc, edits, SECTORS)?;
    let again = held_on(rt, memory, disk.crash(Fate::Junk))?;
    Ok(held == Ok(again) && is_of_kind(&again, kind))
}

static MOVED: [(&[Edit<'_>], Kind); 4] = [
    (UNFINISHED, (1, false, false)),
    (LOGGED, (2, true, false)),
    (BUILDING_1, (6, true, true)),
    (IMAGED_UNFINISHED, (6, true, true)),
];

/// Stores of version 1 are moved.
pub(crate) fn move_each<M: StoreMemory>(
    rt: &impl Abort,
    memory: M,
    alloc: Global,
) -> Result<(), Error> {
    for (edits, kind) in &MOVED {
        let is_moved = is_moved(rt, memory, alloc, *edits, *kind)?;
        claim_at(rt, is_moved, "a moved store of record", kind.0);
    }
    Ok(())
}

// What a moved store answers to requests.
fn answers_of_moved<M: StoreMemory>(
    memory: M,
    old: &mut Disk,
    new: Disk,
    events: &[Event],
) -> Result<Vec<Answer>, Error> {
    match memory.moved(old, new) {
        Ok(mut store) => {
            let answers = store.run(events);
            drop(store.close());
            answers
        }
        Err((_, disk)) => {
            drop(disk);
            Err(Error::NotFormatted)
        }
    }
}

// Whether the row that was moved is read, and one is put behind it, and committed.
fn are_of_commit(answers: &[Answer]) -> bool {
    match answers {
        [
            Answer::Row(Some(row)),
            Answer::Txn(_),
            Answer::Rid(rid),
            Answer::Ticket(ticket),
        ] => {
            row.key.as_slice() == b"ant".as_slice()
                && row.body.as_slice() == b"x".as_slice()
                && *rid == Rid { page: 0, slot: 1 }
                && ticket.record.get() == 4
        }
        _ => false,
    }
}

/// A moved store serves these requests.
pub(crate) fn go_on<M: StoreMemory>(
    rt: &impl Abort,
    memory: M,
    alloc: Global,
    events: &[Event],
) -> Result<(), Error> {
    let (mut old, new) = disks(alloc, LOGGED, SECTORS)?;
    let answers = answers_of_moved(memory, &mut old, new, events);
    drop(old);
    let answers = answers?;
    let is_wanted = are_of_commit(&answers);
    drop(answers);
    claim(rt, is_wanted, "the answers of a moved store");
    Ok(())
}

const COMMIT: &[Script<'_>] = &[(1, "get 0.0\nbegin\ninsert 1 =b =\ncommit 1\n")];

const DAMAGED: MigrateError = MigrateError::Old(Error::Damaged { sector: 0 });

// Stores by what is wrong with them, their sectors, those of the new disk, and why they aren't moved.
static NOT_MOVED: [(&str, &[Edit<'_>], u64, MigrateError); 5] = [
    (
        "a new disk too small",
        LOGGED,
        SECTORS - 1,
        MigrateError::New(Error::DeviceTooSmall),
    ),
    (
        "version 2",
        &[SUPERBLOCK_1, (0, 11, b"\x02")],
        SECTORS,
        DAMAGED,
    ),
    (
        "version 2, and a new disk too small",
        &[SUPERBLOCK_1, (0, 11, b"\x02")],
        0,
        DAMAGED,
    ),
    (
        "more pages",
        &[SUPERBLOCK_1, (0, 15, b"\x02")],
        SECTORS,
        MigrateError::Old(Error::DeviceTooSmall),
    ),
    (
        "no store",
        &[],
        SECTORS,
        MigrateError::Old(Error::NotFormatted),
    ),
];

// A group of a creation, and of a drop of the index, which version 1 has not.
const DROP: &[u8] = b"\0\x02\0\x22\
    \0\0\0\0\0\0\0\x01\0\0\0\0\0\0\0\0\x09\
    \0\0\0\0\0\0\0\x02\0\0\0\0\0\0\0\0\x0e";

// The sectors of a store whose fields are harmed, and the one at which it is damaged.
static HARMED: [(&[Edit<'_>], u64); 18] = [
    (&[SUPERBLOCK_1, (0, 24, b"\x01")], 0),
    (&[SUPERBLOCK_1, (0, 15, b"\0")], 0),
    (&[SUPERBLOCK_1, (2, 0, b"\x03")], 2),
    (&[SUPERBLOCK_1, (2, 1, b"\x01")], 2),
    (&[SUPERBLOCK_1, (2, 45, b"\x01")], 2),
    (&[SUPERBLOCK_1, (3, 39, b"\x01")], 3),
    (&[SUPERBLOCK_1, (3, 9, b"\x01")], 3),
    (&[SUPERBLOCK_1, (3, 7, b"\x01\0\x01")], 4),
    (&[SUPERBLOCK_1, (516, 0, b"\x01")], 516),
    (&[SUPERBLOCK_1, (516, 64, b"\x02")], 516),
    (&[SUPERBLOCK_1, (516, 64, b"\x01\x19")], 516),
    (&[SUPERBLOCK_1, (516, 64, b"\x01"), (516, 90, b"\x26")], 516),
    (&[SUPERBLOCK_1, (523, 0, b"\x02")], 516),
    (&[SUPERBLOCK_1, (2, 44, b"\x01")], 524),
    (&[SUPERBLOCK_1, (528, 0, b"\xa5")], 528),
    (&[SUPERBLOCK_1, (528, 0, b"\xa5"), (529, 0, DROP)], 528),
    (
        &[
            SUPERBLOCK_1,
            (2, 40, b"\x01"),
            (528, 0, b"\xa5"),
            (529, 0, GROUP),
        ],
        528,
    ),
    (&[SUPERBLOCK_1, (536, 0, b"\xa5")], 536),
];

// Why a store with these sectors isn't moved to a disk of so many, if it isn't.
fn why_not_moved<M: StoreMemory>(
    memory: M,
    alloc: Global,
    edits: &[Edit<'_>],
    sectors: u64,
) -> Result<Option<MigrateError>, Error> {
    let (held, disk) = moved(memory, alloc, edits, sectors)?;
    drop(disk);
    Ok(held.err())
}

/// Stores aren't moved; and one of version 1 isn't opened.
pub(crate) fn keep_each<M: StoreMemory>(
    rt: &impl Abort,
    memory: M,
    alloc: Global,
) -> Result<(), Error> {
    for (name, edits, sectors, wanted) in &NOT_MOVED {
        let why = why_not_moved(memory, alloc, *edits, *sectors)?;
        claim(rt, why == Some(*wanted), *name);
    }
    for (edits, sector) in &HARMED {
        let why = why_not_moved(memory, alloc, *edits, 0)?;
        let wanted = MigrateError::Old(Error::Damaged { sector: *sector });
        claim_at(rt, why == Some(wanted), "damage at sector", *sector);
    }
    let refused = why_not_open(memory, old_disk(alloc, LOGGED)?);
    claim(rt, refused == Some(Error::OldVersion), "an old version");
    Ok(())
}

// More than the calls of a disk in a migration, and than its allocations.
const CALLS: u64 = 1_000;

// What fails in a migration: these calls of the old disk and of the new one, of which 0 is none, and the allocation
// behind so many.
type Hindrance = (u64, u64, u64);

// Moves a store to a disk of so many sectors, where this fails. Why it isn't moved, if it isn't; and whether memory was
// refused.
fn hindered<M: StoreMemory>(
    memory: M,
    alloc: Global,
    (old_call, new_call, before): Hindrance,
    sectors: u64,
) -> Result<(Option<MigrateError>, bool), Error> {
    let (old, new) = disks(alloc, LOGGED, sectors)?;
    let mut old = old.failing(Which::All, old_call);
    let was = memory.refused();
    memory.refuse_after(before);
    let (held, disk) = moved_to(memory, &mut old, new.failing(Which::All, new_call));
    drop(old);
    drop(disk);
    Ok((held.err(), was < memory.refused()))
}

// What fails in turn.
#[derive(Clone, Copy)]
enum Place {
    OldCall,
    NewCall,
    Allocation,
}

// What fails at this count.
fn at_count(place: Place, count: u64) -> Hindrance {
    match place {
        Place::OldCall => (count.saturating_add(1), 0, u64::MAX),
        Place::NewCall => (0, count.saturating_add(1), u64::MAX),
        Place::Allocation => (0, 0, count),
    }
}

// Moves a store to a disk of so many sectors, where each place fails in turn, until none does. The answer is this one
// while one does, and else that behind it.
fn hinder_each<M: StoreMemory>(
    rt: &impl Abort,
    memory: M,
    alloc: Global,
    (place, sectors, wanted, whole): (Place, u64, MigrateError, Option<MigrateError>),
) -> Result<(), Error> {
    for count in 0..CALLS {
        let failing = at_count(place, count);
        let (error, is_refused) = hindered(memory, alloc, failing, sectors)?;
        if error == whole && !is_refused {
            return Ok(());
        }
        claim_at(rt, error == Some(wanted), "the refusal at count", count);
    }
    rt.panic("more calls")
}

const OLD_FAILED: MigrateError = MigrateError::Old(Error::DeviceFailed);

const NEW_FAILED: MigrateError = MigrateError::New(Error::DeviceFailed);

const TOO_SMALL: Option<MigrateError> = Some(MigrateError::New(Error::DeviceTooSmall));

// Each call of the old disk fails in turn, and each of the new one, and each allocation is refused in turn. That the
// old disk failed, or that memory was wanting, is told before a new disk that is too small.
static HINDRANCES: [(Place, u64, MigrateError, Option<MigrateError>); 5] = [
    (Place::OldCall, SECTORS, OLD_FAILED, None),
    (Place::NewCall, SECTORS, NEW_FAILED, None),
    (Place::Allocation, SECTORS, MigrateError::NoMemory, None),
    (Place::OldCall, SECTORS - 1, OLD_FAILED, TOO_SMALL),
    (
        Place::Allocation,
        SECTORS - 1,
        MigrateError::NoMemory,
        TOO_SMALL,
    ),
];

/// Each of them.
pub(crate) fn hinder_all<M: StoreMemory>(
    rt: &impl Abort,
    memory: M,
    alloc: Global,
) -> Result<(), Error> {
    for case in &HINDRANCES {
        hinder_each(rt, memory, alloc, *case)?;
    }
    Ok(())
}

/// Stores of version 1 are moved, and one goes on; others aren't moved; and moves are hindered.
pub(crate) const TASKS: &[Task] = &[
    (&[], Job::Move),
    (COMMIT, Job::GoOn),
    (&[], Job::KeepOld),
    (&[], Job::Hinder),
];
