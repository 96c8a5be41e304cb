// Images that are copied piece by piece.
use crate::answer::Answer;
use crate::claims::{claim, claim_at};
use crate::contents::Contents;
use crate::disk::Disk;
use crate::jobs::{Job, Task};
use crate::opened::{held_on, open};
use crate::store::{OpenStore, StoreMemory};
use model::Life;
use records::Error;
use restart::Event;
use sector_device::{Fate, Which};
use std::alloc::Global;
use std::process::Abort;
use test_store::{Script, requests_of};

/// What requests on a store of so many pages and slots tell, up to the flip that ends them: the last numbers of records
/// to wait for, or that are safe, where a piece that is copied counts as 0. A crash leaves two rows then, and so many
/// entries; without any there is no index.
#[derive(Clone, Copy)]
pub(crate) struct Flip<'a> {
    size: (u32, u32),
    numbers: &'a [u64],
    entries: usize,
}

// Whether the last numbers that the answers tell are these.
fn tell_at_last(answers: &[Answer], numbers: &[u64]) -> bool {
    let mut before = numbers;
    for answer in answers.iter().rev() {
        let Some((last, others)) = before.split_last() else {
            return true;
        };
        if let Some(number) = answer.number() {
            if number != *last {
                return false;
            }
            before = others;
        }
    }
    before.is_empty()
}

/// What these requests to the store on the disk are answered, and what they leave.
pub(crate) fn run_over<M: StoreMemory>(
    rt: &impl Abort,
    memory: M,
    disk: Disk,
    events: &[Event],
) -> Result<(Vec<Answer>, Disk), Error> {
    let mut store = open(rt, memory, disk)?;
    let run = store.run(events);
    let disk = store.close();
    match run {
        Ok(answers) => Ok((answers, disk)),
        Err(error) => {
            drop(disk);
            Err(error)
        }
    }
}

// Whether this is left, where the last record that is safe has this number.
fn is_left(left: &Contents, flip: &Flip<'_>) -> bool {
    let are_rows = left.rows.0.is_some() && left.rows.1.is_some();
    let is_absent = left.life == Life::Absent;
    flip.numbers.last().copied() == Some(left.last)
        && are_rows
        && is_absent == (left.count == 0)
        && left.count == flip.entries
}

/// A run of these requests gives what is wanted, and so does a crash behind it.
pub(crate) fn check_flip<M: StoreMemory>(
    rt: &impl Abort,
    memory: M,
    alloc: Global,
    events: &[Event],
    flip: &Flip<'_>,
) -> Result<(), Error> {
    let disk = Disk::formatted(alloc, flip.size.0, flip.size.1)?;
    let (answers, disk) = run_over(rt, memory, disk, events)?;
    let is_flipped = matches!(answers.last(), Some(Answer::Flipped(_)));
    let is_told = tell_at_last(&answers, flip.numbers);
    drop(answers);
    let held = held_on(rt, memory, disk.crash(Fate::Junk));
    claim(rt, is_flipped && is_told, "the numbers that are told");
    claim(rt, is_left(&held?, flip), "what a crash leaves");
    Ok(())
}

// A transaction works while an image is copied, and then it is current: what was made meanwhile is there too.
const BETWEEN: &[Script<'_>] = &[(
    1,
    "begin\ninsert 1 =a =\ncommit 1\nimage\nimage\n\
    begin\ninsert 2 =b =\ncommit 2\nimage\nimage\nimage\n",
)];

// An index of two rows is dropped when three pieces of an image are copied.
const DROPPED: &[Script<'_>] = &[(
    1,
    "begin\ninsert 1 =a =\ninsert 1 =b =\ncommit 1\ncreate\nbuild 4\n\
    image\nimage\nimage\ndrop\nflush\nimage\n",
)];

// Of 200 rows on four pages, and their entries, an image takes its start, the pages, and two chunks of entries.
const BUILT: &[Script<'_>] = &[
    (1, "begin\n"),
    (50, "insert 1 =a =\n"),
    (1, "commit 1\nbegin\n"),
    (50, "insert 2 =a =\n"),
    (1, "commit 2\nbegin\n"),
    (50, "insert 3 =a =\n"),
    (1, "commit 3\nbegin\n"),
    (50, "insert 4 =a =\n"),
    (
        1,
        "commit 4\ncreate\nbuild 208\nimage\nimage\nimage\nimage\nimage\nimage\nimage\nimage\n",
    ),
];

// An index of 200 rows is dropped when its first chunk is copied, and made anew: what was copied of the first is gone.
const ANEW: &[Script<'_>] = &[
    (1, "begin\n"),
    (50, "insert 1 =a =\n"),
    (1, "commit 1\nbegin\n"),
    (50, "insert 2 =a =\n"),
    (1, "commit 2\nbegin\n"),
    (50, "insert 3 =a =\n"),
    (1, "commit 3\nbegin\n"),
    (50, "insert 4 =a =\n"),
    (
        1,
        "commit 4\ncreate\nbuild 208\nimage\nimage\nimage\nimage\nimage\nimage\n\
        drop\ncreate\nbuild 68\nimage\nimage\n",
    ),
];

// An image of four pages, without an index, takes its start, the pages, no entries, and a flip.
const STEPS: u32 = 7;

// 200 rows on four pages; so many steps of images; then this; and then an image.
fn behind_images(steps: u32, change: &str) -> [Script<'_>; 12] {
    [
        (1, "begin\n"),
        (50, "insert 1 =a =\n"),
        (1, "commit 1\nbegin\n"),
        (50, "insert 2 =a =\n"),
        (1, "commit 2\nbegin\n"),
        (50, "insert 3 =a =\n"),
        (1, "commit 3\nbegin\n"),
        (50, "insert 4 =a =\n"),
        (1, "commit 4\n"),
        (steps, "image\n"),
        (1, change),
        (STEPS, "image\n"),
    ]
}

// How many writes and syncs these requests make to a new store of four pages.
fn calls_of<M: StoreMemory>(
    rt: &impl Abort,
    memory: M,
    alloc: Global,
    scripts: &[Script<'_>],
) -> Result<u64, Error> {
    let events = requests_of(alloc, scripts)?;
    let disk = Disk::formatted(alloc, 4, 16)?.failing(Which::WritesAndSyncs, 0);
    let ran = run_over(rt, memory, disk, &events);
    drop(events);
    let (answers, disk) = ran?;
    drop(answers);
    let made = disk.made();
    drop(disk);
    Ok(made)
}

// How many the last image makes, behind so many steps of images and this.
fn calls_of_image<M: StoreMemory>(
    rt: &impl Abort,
    memory: M,
    alloc: Global,
    (steps, change): (u32, &str),
) -> Result<u64, Error> {
    let scripts = behind_images(steps, change);
    let all = calls_of(rt, memory, alloc, &scripts)?;
    let before = calls_of(rt, memory, alloc, &scripts[..11])?;
    Ok(all.saturating_sub(before))
}

// A row of the first page is put anew.
const CHANGED: &str = "begin\nupdate 5 0.0 =b =\ncommit 5\n";

// What stands before an image, and how many pages of 16 sectors it passes over, of four. The second image of a store is
// whole, as the first one is. The third passes over the pages that didn't change since the first.
static PASSED: [(u32, &str, u64); 4] = [
    (0, "", 0),
    (STEPS, "", 0),
    (2 * STEPS, "", 4),
    (2 * STEPS, CHANGED, 3),
];

// A group takes seven writes of its body, a sync, a write of its gate, and a sync.
const GROUP_CALLS: u64 = 10;

// How many groups so many flushes write, where what waits fills one group and some of another.
static GROUPS: [(u32, u64); 3] = [(1, 1), (2, 2), (3, 2)];

// The records of two transactions wait, and then so many flushes are made.
fn calls_of_flushes<M: StoreMemory>(
    rt: &impl Abort,
    memory: M,
    alloc: Global,
    flushes: u32,
) -> Result<u64, Error> {
    let scripts = [
        (1, "begin\n"),
        (60, "insert 1 =a =12345678\n"),
        (1, "commit 1\nbegin\n"),
        (60, "insert 2 =a =12345678\n"),
        (1, "commit 2\n"),
        (flushes, "flush\n"),
    ];
    calls_of(rt, memory, alloc, &scripts)
}

// Counts the calls of the device that groups take.
fn count_calls_of_groups<M: StoreMemory>(
    rt: &impl Abort,
    memory: M,
    alloc: Global,
) -> Result<(), Error> {
    let before = calls_of_flushes(rt, memory, alloc, 0)?;
    for (flushes, groups) in &GROUPS {
        let all = calls_of_flushes(rt, memory, alloc, *flushes)?;
        let is_so = all == before.saturating_add(groups.saturating_mul(GROUP_CALLS));
        claim_at(rt, is_so, "calls of groups:", all.saturating_sub(before));
    }
    Ok(())
}

/// Counts the writes of images, and the calls of groups.
pub(crate) fn count_writes<M: StoreMemory>(
    rt: &impl Abort,
    memory: M,
    alloc: Global,
) -> Result<(), Error> {
    count_calls_of_groups(rt, memory, alloc)?;
    let whole = calls_of_image(rt, memory, alloc, (0, ""))?;
    for (steps, change, passed) in &PASSED {
        let calls = calls_of_image(rt, memory, alloc, (*steps, *change))?;
        let is_so = whole.saturating_sub(calls) == passed.saturating_mul(16);
        claim_at(rt, is_so, "pages that an image passes over:", *passed);
    }
    Ok(())
}

/// Images that become current, and an image that passes over pages.
pub(crate) const TASKS: &[Task] = &[
    (
        BETWEEN,
        Job::Flip(Flip {
            size: (2, 4),
            numbers: &[2, 0, 0, 4, 0, 0, 4],
            entries: 0,
        }),
    ),
    (
        DROPPED,
        Job::Flip(Flip {
            size: (1, 4),
            numbers: &[3, 4, 0, 0, 0, 8, 8, 8],
            entries: 0,
        }),
    ),
    (
        BUILT,
        Job::Flip(Flip {
            size: (4, 16),
            numbers: &[205, 0, 0, 0, 0, 0, 0, 0, 409],
            entries: 200,
        }),
    ),
    (
        ANEW,
        Job::Flip(Flip {
            size: (4, 16),
            numbers: &[205, 0, 0, 0, 0, 0, 0, 410, 411, 0, 475],
            entries: 64,
        }),
    ),
    (&[], Job::CountWrites),
];
