// Stores that were harmed.
use crate::claims::claim;
use crate::disk::Disk;
use crate::jobs::{Job, Task};
use crate::store::{OpenStore, StoreMemory};
use records::Error;
use std::alloc::Global;
use std::process::Abort;
use test_store::{Edit, GROUP};

/// Why the store on the disk isn't opened.
pub(crate) fn why_not_open<M: StoreMemory>(memory: M, disk: Disk) -> Option<Error> {
    match memory.open(disk) {
        Ok(store) => {
            drop(store.close());
            None
        }
        Err((error, disk)) => {
            drop(disk);
            Some(error)
        }
    }
}

// The least store, just formatted and then changed so.
fn edited(alloc: Global, edits: &[Edit<'_>]) -> Result<Disk, Error> {
    Disk::formatted(alloc, 1, 4)?.edited(edits)
}

// Harms by their names, the sectors that are changed, and why the store isn't opened, if it isn't.
static HARMED: [(&str, &[Edit<'_>], Option<Error>); 24] = [
    (
        "version 4",
        &[(0, 11, b"\x04")],
        Some(Error::Damaged { sector: 0 }),
    ),
    (
        "version 3 of a small store",
        &[(0, 11, b"\x03")],
        Some(Error::Damaged { sector: 0 }),
    ),
    (
        "version 2 of a store that isn't small",
        &[(0, 14, b"\x01")],
        Some(Error::Damaged { sector: 0 }),
    ),
    (
        "a byte behind the superblock",
        &[(0, 24, b"\x01")],
        Some(Error::Damaged { sector: 0 }),
    ),
    (
        "no pages",
        &[(0, 15, b"\0")],
        Some(Error::Damaged { sector: 0 }),
    ),
    (
        "a header of no life",
        &[(2, 0, b"\x03")],
        Some(Error::Damaged { sector: 2 }),
    ),
    (
        "a highest pair of no index",
        &[(2, 1, b"\x01")],
        Some(Error::Damaged { sector: 2 }),
    ),
    (
        "a byte behind the header",
        &[(2, 77, b"\x01")],
        Some(Error::Damaged { sector: 2 }),
    ),
    (
        "a head behind none",
        &[(3, 39, b"\x01")],
        Some(Error::Damaged { sector: 3 }),
    ),
    (
        "a head with a change of none",
        &[(3, 9, b"\x01")],
        Some(Error::Damaged { sector: 3 }),
    ),
    (
        "a change that is none",
        &[(3, 7, b"\x01\0\x01")],
        Some(Error::Damaged { sector: 4 }),
    ),
    (
        "a used page",
        &[(1028, 0, b"\x01")],
        Some(Error::Damaged { sector: 1028 }),
    ),
    (
        "a row that is none",
        &[(1028, 64, b"\x02")],
        Some(Error::Damaged { sector: 1028 }),
    ),
    (
        "the last sector of a page",
        &[(1043, 0, b"\x02")],
        Some(Error::Damaged { sector: 1028 }),
    ),
    (
        "a byte behind the rows of a page",
        &[(1043, 511, b"\x01")],
        Some(Error::Damaged { sector: 1028 }),
    ),
    (
        "an entry that is none",
        &[(2, 76, b"\x01")],
        Some(Error::Damaged { sector: 1044 }),
    ),
    (
        "an open gate before no group",
        &[(1052, 0, b"\xa5")],
        Some(Error::Damaged { sector: 1052 }),
    ),
    (
        "an open gate after a closed one",
        &[(1060, 0, b"\xa5")],
        Some(Error::Damaged { sector: 1060 }),
    ),
    (
        "a group whose first record the image has",
        &[(2, 72, b"\x01"), (1052, 0, b"\xa5"), (1053, 0, GROUP)],
        Some(Error::Damaged { sector: 1052 }),
    ),
    ("version 1", &[(0, 11, b"\x01")], Some(Error::OldVersion)),
    (
        "version 1, and more pages than any store",
        &[(0, 11, b"\x01\xff\xff")],
        Some(Error::OldVersion),
    ),
    ("another title", &[(0, 0, b"\0")], Some(Error::NotFormatted)),
    (
        "more pages",
        &[(0, 15, b"\x02")],
        Some(Error::DeviceTooSmall),
    ),
    (
        "an open gate before a group",
        &[(1052, 0, b"\xa5"), (1053, 0, GROUP)],
        None,
    ),
];

/// Opens each of them.
pub(crate) fn open_harmed<M: StoreMemory>(
    rt: &impl Abort,
    memory: M,
    alloc: Global,
) -> Result<(), Error> {
    for (name, edits, wanted) in &HARMED {
        let refused = why_not_open(memory, edited(alloc, *edits)?);
        claim(rt, refused == *wanted, *name);
    }
    Ok(())
}

/// Stores that were harmed.
pub(crate) const TASKS: &[Task] = &[(&[], Job::OpenHarmed)];
