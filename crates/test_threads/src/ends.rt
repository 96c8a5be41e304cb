//! What the end of all threads leaves, and what a restart finds after a crash then.
use crate::found::{Disk, Found, SERVED, look_in};
use crate::seats::Told;
use crate::store::Finished;
use model::{ROWS_PER_PAGE, RowMap};
use nsf_core::Core;
use program_demonstration::key_of;
use records::{Body, Error, LARGE_ENTRIES_MAX, Row};
use restart::{Engine, restart};
use sector_device::{Fate, MemDisk};
use std::alloc::Global;
use std::mem::forget;
use threads_lifetime::Closed;
use threads_sessions::Commit;

/// How all threads ended: why not all was written out, if so; whether what was left is what the commits made of what
/// was opened; and what a restart finds of the rows that were told. Where all was written out that is all that was
/// left.
#[derive(Clone, Copy)]
pub struct Seen {
    pub end: Option<Error>,
    pub whole: bool,
    pub found: Found,
}

// The store on the disk, opened after a crash.
fn opened_after_crash(alloc: Global, disk: Disk) -> Result<Engine<MemDisk<Global>, Global>, Error> {
    let mut disk = disk.into_inner();
    disk.crash(&[Fate::Junk]);
    match restart(alloc, disk) {
        Ok(engine) => Ok(engine),
        Err((error, device)) => {
            forget(device);
            Err(error)
        }
    }
}

// Whether the commits have the numbers from 1 on, in their order, and their records rise and are no later than this.
fn are_numbered(commits: &[Commit], horizon: u64) -> bool {
    let mut number: u64 = 0;
    let mut last: u64 = 0;
    for commit in commits {
        let ticket = commit.ticket();
        let record = ticket.record.get();
        number = number.saturating_add(1);
        if ticket.commit != Some(number) || record <= last || horizon < record {
            return false;
        }
        last = record;
    }
    true
}

// Sets the rows that the commits left.
fn set_all(rows: &mut RowMap<Global>, commits: &[Commit]) -> Result<(), Error> {
    rows.set(
        SERVED.rid,
        Some(Row {
            key: key_of(SERVED.first, SERVED.second)?,
            body: Body::new(b"")?,
        }),
    )?;
    for commit in commits {
        for write in commit.writes() {
            rows.set(write.rid, write.row)?;
        }
    }
    Ok(())
}

// Whether the core has these rows, and no others.
fn has_rows(core: &Core<Global>, rows: &RowMap<Global>) -> bool {
    for page in 0..core.pages() {
        let are_same = match core.page_slots(page) {
            Some(slots) => *slots == rows.page(page),
            None => rows.page(page) == [None; ROWS_PER_PAGE],
        };
        if !are_same {
            return false;
        }
    }
    true
}

// Whether both cores have the same rows.
fn are_same_rows(core: &Core<Global>, other: &Core<Global>) -> bool {
    for page in 0..core.pages() {
        if core.page_slots(page) != other.page_slots(page) {
            return false;
        }
    }
    core.pages() == other.pages()
}

// Whether both have the same entries.
fn are_same_entries(core: &Core<Global>, other: &Core<Global>) -> bool {
    let mut next = core.above(None);
    let mut its = other.above(None);
    for _ in 0..=LARGE_ENTRIES_MAX {
        if next != its {
            return false;
        }
        let Some((pair, _)) = next else {
            return true;
        };
        next = core.above(Some(&pair));
        its = other.above(Some(&pair));
    }
    false
}

// Whether both hold the same.
fn are_same(core: &Core<Global>, other: &Core<Global>) -> bool {
    core.last() == other.last()
        && core.life() == other.life()
        && are_same_rows(core, other)
        && are_same_entries(core, other)
}

// Whether the commits are numbered, and the core has what they left.
fn is_made_by(alloc: Global, core: &Core<Global>, commits: &[Commit]) -> Result<bool, Error> {
    let mut rows = RowMap::new(alloc);
    let set = set_all(&mut rows, commits);
    let are_rows = has_rows(core, &rows);
    forget(rows);
    set?;
    Ok(are_rows && are_numbered(commits, core.last()))
}

// What is seen where all was written out.
fn look_at_closed(alloc: Global, closed: Closed<Disk>, told: &Told) -> Result<Seen, Error> {
    let Closed {
        device,
        core,
        horizon,
        commits,
    } = closed;
    let engine = opened_after_crash(alloc, device)?;
    let made = match &commits {
        Some(commits) => is_made_by(alloc, &core, commits),
        None => Ok(false),
    };
    let is_safe = told.safe <= horizon && horizon == core.last();
    let are_same = are_same(&core, engine.core());
    let found = look_in(engine.core(), told);
    forget(engine);
    forget(core);
    forget(commits);
    Ok(Seen {
        end: None,
        whole: made? && is_safe && are_same,
        found: found?,
    })
}

// What is seen where not all was.
fn look_at_device(alloc: Global, error: Error, disk: Disk, told: &Told) -> Result<Seen, Error> {
    let engine = opened_after_crash(alloc, disk)?;
    let whole = told.safe <= engine.core().last();
    let found = look_in(engine.core(), told);
    forget(engine);
    Ok(Seen {
        end: Some(error),
        whole,
        found: found?,
    })
}

/// What is seen of an end, and after a crash of its device.
pub(crate) fn look(alloc: Global, end: Finished<Disk>, told: &Told) -> Result<Seen, Error> {
    match end {
        Ok(closed) => look_at_closed(alloc, closed, told),
        Err((error, disk)) => look_at_device(alloc, error, disk, told),
    }
}
