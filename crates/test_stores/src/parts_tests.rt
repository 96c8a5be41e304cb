// A store is built to its end, and taken apart, with ample memory.
use crate::claims::claim;
use crate::disk::Disk;
use crate::jobs::{Job, Task};
use crate::opened::open;
use crate::store::{OpenStore, StoreMemory};
use model::Life;
use records::Error;
use restart::Event;
use sector_device::Which;
use std::alloc::Global;
use std::process::Abort;
use test_store::Script;

/// The numbers of the last record of a core and of the last that is safe, and how many writes and syncs were made.
pub(crate) type Parts = (u64, u64, u64);

// What taking the store on a new disk apart gives after these requests. Its writer has all records.
fn parted<M: StoreMemory>(
    rt: &impl Abort,
    memory: M,
    alloc: Global,
    events: &[Event],
) -> Result<Parts, Error> {
    let disk = Disk::formatted(alloc, 1, 4)?.failing(Which::WritesAndSyncs, 0);
    let mut store = open(rt, memory, disk)?;
    let run = store.run(events);
    let (last, synced, missing, disk) = store.into_parts();
    let made = disk.made();
    drop(disk);
    drop(run?);
    claim(rt, missing == 0, "records of the writer");
    Ok((last, synced, made))
}

/// A store is taken apart after these requests, which gives these numbers.
pub(crate) fn take_apart<M: StoreMemory>(
    rt: &impl Abort,
    memory: M,
    alloc: Global,
    events: &[Event],
    wanted: Parts,
) -> Result<(), Error> {
    let parted = parted(rt, memory, alloc, events)?;
    claim(rt, parted == wanted, "the parts of a store");
    Ok(())
}

// The number of the record that ended the build of the index on the disk, after these requests. A second build to the
// end gives the same. Whether the index is complete then, too.
fn completed_on<M: StoreMemory>(
    rt: &impl Abort,
    memory: M,
    disk: Disk,
    events: &[Event],
) -> Result<(u64, u64, bool), Error> {
    let mut store = open(rt, memory, disk)?;
    let run = store.run(events);
    let first = store.build_to_end();
    let second = store.build_to_end();
    let is_complete = store.contents().life == Life::Complete;
    drop(store.close());
    drop(run?);
    Ok((first?, second?, is_complete))
}

/// An index is built to its end after these requests, by this record, or a build is refused. One that is complete and
/// has no record, as a store may begin, has the number 0.
pub(crate) fn build_to_end<M: StoreMemory>(
    rt: &impl Abort,
    memory: M,
    alloc: Global,
    events: &[Event],
    wanted: Result<u64, Error>,
) -> Result<(), Error> {
    let disk = Disk::formatted(alloc, 1, 4)?;
    let disk = if events.is_empty() {
        disk.edited(&[(2, 0, b"\x02")])?
    } else {
        disk
    };
    let built = completed_on(rt, memory, disk, events);
    let is_so = match built {
        Ok((first, second, is_complete)) => {
            is_complete && wanted == Ok(first) && wanted == Ok(second)
        }
        Err(error) => wanted == Err(error),
    };
    claim(rt, is_so, "a build to the end");
    Ok(())
}

// So many writes and syncs a restart makes on a new store.
const RESTART: u64 = 27;

// A commit is safe, and a transaction is active; there is no index.
const WITH_TXN: &[Script<'_>] = &[(
    1,
    "begin\ninsert 1 =a =\ncommit 1\nflush\nbegin\ninsert 2 =b =\n",
)];

// An index over one row was begun.
const WITH_INDEX: &[Script<'_>] = &[(1, "begin\ninsert 1 =a =\ncommit 1\ncreate\n")];

/// A store is taken apart, one with an active transaction too, where nothing more is written than the restart and a
/// group. An index is built to its end, and one that is complete stays so.
pub(crate) const TASKS: &[Task] = &[
    (WITH_TXN, Job::TakeApart((3, 2, RESTART + 10))),
    (WITH_INDEX, Job::TakeApart((3, 0, RESTART))),
    (WITH_INDEX, Job::BuildToEnd(Ok(5))),
    (WITH_TXN, Job::BuildToEnd(Err(Error::NoIndex))),
    (&[], Job::BuildToEnd(Ok(0))),
];
