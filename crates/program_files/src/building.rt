//! The index of a store is built to its end, or anew.
use crate::making::close;
use crate::opening::{open_store, open_within};
use crate::refused::{Refused, granted};
use block_host::InFile;
use model::Life;
use nsf_core::{BuildReply, Core};
use program_arguments::Build;
use program_commands::Store;
use records::{Error, Pair, Rid, Row, SLOTS_PER_PAGE, compare_pairs};
use restart::{Event, Reply};
use sector_device::Device;
use std::alloc::Global;
use std::fs::File;
use std::io::Write;
use std::rt::{Clock, Files};
use store_file::Troubled;

// How many steps of the builder lie between two flushes.
const STEPS: u32 = 64;

// What a step of the builder came to.
#[derive(Clone, Copy)]
enum Step {
    /// The index is complete.
    Complete,
    /// A pair was attempted.
    Attempted,
    /// A page was taken, or a checkpoint made.
    Other,
}

// Makes a step of the builder.
fn build_step<D: Device>(store: &mut Store<D>) -> Result<Step, Refused> {
    match store.serve(Event::Build) {
        Reply::Built(BuildReply::Done(_)) | Reply::Built(BuildReply::Idle) => Ok(Step::Complete),
        Reply::Built(BuildReply::Placed(_)) | Reply::Built(BuildReply::Rejected(_)) => {
            Ok(Step::Attempted)
        }
        Reply::Refused(error) => Err(Refused::Store(error)),
        _ => Ok(Step::Other),
    }
}

// Makes some steps of the builder, and tells whether the index is complete, and how many pairs were attempted.
fn build_some<D: Device>(store: &mut Store<D>) -> Result<(bool, u64), Refused> {
    let mut attempts: u64 = 0;
    for _ in 0..STEPS {
        match build_step(store)? {
            Step::Complete => return Ok((true, attempts)),
            Step::Attempted => attempts = attempts.saturating_add(1),
            Step::Other => {}
        }
    }
    Ok((false, attempts))
}

// Whether the builder has still to attempt the pair of a row at a place, behind the highest that it checkpointed.
fn is_left(row: &Row, rid: Rid, highest: Option<&Pair>) -> bool {
    match highest {
        Some(highest) => {
            let pair = Pair { key: row.key, rid };
            compare_pairs(highest, &pair).is_lt()
        }
        None => true,
    }
}

// How many pairs the builder has still to attempt in a page.
fn left_in_page(core: &Core<Global>, page: u32, highest: Option<&Pair>) -> u64 {
    let mut left: u64 = 0;
    for slot in 0..SLOTS_PER_PAGE {
        let rid = Rid { page, slot };
        if let Some(row) = core.get(rid) {
            left = left.saturating_add(u64::from(is_left(&row, rid, highest)));
        }
    }
    left
}

// How many pairs the builder has still to attempt.
fn left_in(core: &Core<Global>) -> u64 {
    let Life::Building { highest } = core.life() else {
        return 0;
    };
    let mut left: u64 = 0;
    for page in 0..core.pages() {
        left = left.saturating_add(left_in_page(core, page, highest.as_ref()));
    }
    left
}

// Shows how many pairs were attempted of how many, over the line before, where that can be.
fn show<E: Write>(attempts: u64, total: u64, errors: &mut E) {
    let _ = write!(errors, "\rpairs attempted: {attempts} of {total}");
}

// Builds the index to its end, flushing as it goes, and shows the count of attempts where that is wanted.
fn build_on<D: Device, E: Write>(
    store: &mut Store<D>,
    shows_progress: bool,
    errors: &mut E,
) -> Result<u64, Refused> {
    let total = left_in(store.core());
    let mut attempts: u64 = 0;
    for _ in 0..u64::MAX {
        let (is_complete, more) = build_some(store)?;
        attempts = attempts.saturating_add(more);
        granted(store.flush())?;
        if shows_progress {
            show(attempts, total, errors);
        }
        if is_complete {
            break;
        }
    }
    Ok(attempts)
}

// Drops the index, if there is one, and creates it anew. No transaction is active right behind an opening.
fn renew<D: Device>(store: &mut Store<D>) -> Result<(), Refused> {
    if store.life() != Life::Absent {
        granted(store.serve(Event::Drop))?;
    }
    granted(store.serve(Event::Create))
}

// What is told where the index has no free place for a further entry.
fn full(build: Build) -> Refused {
    if build.is_anew {
        Refused::SmallIndex
    } else {
        Refused::FullIndex
    }
}

// Refused where the store isn't sound, also where the index is to be made anew. Then makes it anew, if that is wanted,
// or is refused where there is none.
fn ready_index<D: Device>(store: &mut Store<D>, build: Build) -> Result<(), Refused> {
    if !store.core().can_open() {
        return Err(Refused::Unsound);
    }
    if build.is_anew {
        return renew(store);
    }
    if store.life() == Life::Absent {
        return Err(Refused::NoIndex);
    }
    Ok(())
}

// Builds the index to its end, and answers how many pairs were attempted. What is shown of that stands on a line of its
// own.
fn build_index<D: Device, E: Write>(
    store: &mut Store<D>,
    build: Build,
    errors: &mut E,
) -> Result<u64, Refused> {
    ready_index(store, build)?;
    let built = build_on(store, build.shows_progress, errors);
    if build.shows_progress {
        let _ = writeln!(errors);
    }
    match built {
        Err(Refused::Store(Error::IndexFull)) => Err(full(build)),
        built => built,
    }
}

// The same, and prints how many were attempted.
fn build<D: Device + Troubled, W: Write, E: Write>(
    store: &mut Store<D>,
    build: Build,
    output: &mut W,
    errors: &mut E,
) -> Result<(), Refused> {
    let attempts = match build_index(store, build, errors) {
        Ok(attempts) => attempts,
        Err(refused) => return Err(refused.because(store.device())),
    };
    writeln!(output, "complete, {attempts} pairs attempted")?;
    Ok(())
}

// Builds the index of the store on the disk to its end, whose use is ended then.
fn build_disk<D: Device + Troubled + InFile + Drop, W: Write, E: Write>(
    alloc: Global,
    disk: D,
    asked: Build,
    output: &mut W,
    errors: &mut E,
) -> Result<(), Refused> {
    let mut store = open_store(alloc, disk)?;
    let built = build(&mut store, asked, output, errors);
    let ended = close(store.into_device());
    built?;
    ended
}

/// Builds the index of the store in the file to its end, and prints how many pairs were attempted. Where the index is
/// to be made anew, it is dropped before, if there is one.
pub fn build_file<R: Files<File = File> + Clock + AllocGlobal, W: Write, E: Write>(
    rt: &R,
    path: &str,
    asked: Build,
    output: &mut W,
    errors: &mut E,
) -> Result<(), Refused> {
    let disk = open_within(rt, path, asked.wait)?;
    build_disk(rt.alloc(), disk, asked, output, errors)
}
