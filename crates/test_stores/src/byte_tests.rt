// A store byte by byte, as the format document has it.
use crate::claims::claim_at;
use crate::disk::Disk;
use crate::image_tests::run_over;
use crate::jobs::{Job, Task};
use crate::store::StoreMemory;
use records::Error;
use restart::Event;
use std::alloc::Global;
use std::process::Abort;
use test_store::{Edit, GROUP, Script};

// A commit, and then a build, a change behind it that owes nothing, and an image.
const SCRIPT: &[Script<'_>] = &[(
    1,
    "begin\ninsert 1 =ant =x\ncommit 1\nflush\n\
    create\nbuild 2\nbegin\ninsert 2 =a =\nstep 2\nimage\nimage\nimage\nimage\n",
)];

// What stands in the sectors that are compared: the rest is zeros. The first restart makes half B current: half A is in
// sectors 2 to 1083, half B begins at 1084, and its first gate is in 2134.
const BYTES: &[Edit<'_>] = &[
    (0, 0, b"NSFINDEX\0\0\0\x02\0\0\0\x01\0\0\0\x40\0\0\0\x04"),
    // half A is current again: sector 1 is zeros, and then comes its header; the index is being built, the image is of
    // record 6, and there are two entries
    (2, 0, b"\x01"),
    (2, 72, b"\x06\0\0\0\x02"),
    // one list, of transaction 2, and its one change
    (3, 7, b"\x02\0\x01"),
    (4, 0, b"\x01\0\0\0\0\0\x01"),
    (4, 135, b"\x01\x01a"),
    // the rows
    (1028, 64, b"\x01\x03ant"),
    (1028, 122, b"\x01x"),
    (1028, 192, b"\x01\x01a"),
    // the entries
    (1044, 0, b"\x01a"),
    (1044, 62, b"\x01\x01"),
    (1044, 64, b"\x03ant"),
    (1044, 127, b"\x01"),
    // the group in the log of half B; the rest of its slot, and the next gate, are zeros
    (2134, 0, b"\xa5"),
    (2135, 0, GROUP),
];

// The first of sectors that are compared, and the one behind the last.
const COMPARED: &[(u64, u64)] = &[
    (0, 5),
    (1028, 1030),
    (1044, 1045),
    (1052, 1053),
    (2134, 2143),
];

// The superblock of a store of 257 pages, which isn't small: its version is 3.
const LARGE: &[Edit<'_>] = &[(
    0,
    0,
    b"NSFINDEX\0\0\0\x03\0\0\x01\x01\0\0\x40\x40\0\0\0\x04",
)];

/// A store of so many pages, what stands in its sectors, and which are compared.
#[derive(Clone, Copy)]
pub(crate) struct Layout {
    pages: u32,
    bytes: &'static [Edit<'static>],
    compared: &'static [(u64, u64)],
}

fn compare(rt: &impl Abort, disk: &mut Disk, layout: Layout) {
    for (first, end) in layout.compared {
        let holds = disk.holds(layout.bytes, *first, *end);
        claim_at(rt, holds, "the sectors from this one on:", *first);
    }
}

pub(crate) fn run_and_compare<M: StoreMemory>(
    rt: &impl Abort,
    memory: M,
    alloc: Global,
    events: &[Event],
    layout: Layout,
) -> Result<(), Error> {
    let disk = Disk::formatted(alloc, layout.pages, 4)?;
    let (answers, mut disk) = run_over(rt, memory, disk, events)?;
    drop(answers);
    compare(rt, &mut disk, layout);
    drop(disk);
    Ok(())
}

const SMALL: Layout = Layout {
    pages: 1,
    bytes: BYTES,
    compared: COMPARED,
};

const NOT_SMALL: Layout = Layout {
    pages: 257,
    bytes: LARGE,
    compared: &[(0, 1)],
};

/// A small store, and the superblock of one that isn't.
pub(crate) const TASKS: &[Task] = &[
    (SCRIPT, Job::CompareBytes(SMALL)),
    (SCRIPT, Job::CompareBytes(NOT_SMALL)),
];
