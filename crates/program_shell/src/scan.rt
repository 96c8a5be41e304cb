//! A range of the index of a store is shown.
use core_scan::KeyRange;
use model::Life;
use program_arguments::ScanArguments;
use program_commands::{Outcome, PageRequest, Store};
use program_files::Refused;
use program_script::read_bytes;
use records::Key;
use sector_device::Device;
use std::alloc::Global;
use std::io::Write;
use std::ops::Bound;

/// What is to be shown of a range of the index.
#[derive(Clone, Copy)]
pub(crate) struct Shown {
    page: PageRequest,
    /// Whether only the count of its pairs is.
    counts: bool,
}

// The key that a word gives.
fn key_of(alloc: Global, word: &str) -> Result<Key, Refused> {
    match read_bytes(alloc, word.as_bytes())? {
        Some(bytes) => Ok(Key::new(bytes.as_slice())?),
        None => Err(Refused::NoKey),
    }
}

// The bound that has the key of a word, if there is one.
fn bound_of(alloc: Global, word: Option<&String>) -> Result<Bound<Key>, Refused> {
    match word {
        Some(word) => Ok(Bound::Included(key_of(alloc, word.as_str())?)),
        None => Ok(Bound::Unbounded),
    }
}

fn range_of(alloc: Global, asked: &ScanArguments) -> Result<KeyRange, Refused> {
    if let Some(prefix) = &asked.prefix {
        return Ok(KeyRange::prefix(key_of(alloc, prefix.as_str())?));
    }
    Ok(KeyRange {
        from: bound_of(alloc, asked.first.as_ref())?,
        to: bound_of(alloc, asked.last.as_ref())?,
    })
}

/// What is asked for, where each word of a key is one.
pub(crate) fn shown_by(alloc: Global, asked: &ScanArguments) -> Result<Shown, Refused> {
    let limit = match asked.limit {
        Some(limit) => limit as usize,
        None => usize::MAX,
    };
    let range = range_of(alloc, asked)?;
    Ok(Shown {
        page: PageRequest {
            range,
            is_back: asked.is_back,
            limit,
        },
        counts: asked.counts,
    })
}

// Prints the pairs, or their count.
fn print<D: Device, W: Write>(
    alloc: Global,
    store: &Store<D>,
    shown: &Shown,
    output: &mut W,
) -> Result<Outcome, Refused> {
    let outcome = if shown.counts {
        store.print_count(&shown.page.range, output)?
    } else {
        store.print_page(alloc, &shown.page, output)?
    };
    Ok(outcome)
}

/// Refused where the index isn't complete.
pub(crate) fn refuse_incomplete(life: Life) -> Result<(), Refused> {
    match life {
        Life::Absent => Err(Refused::NoIndex),
        Life::Building { .. } => Err(Refused::NotBuilt),
        Life::Complete => Ok(()),
    }
}

/// Prints what is to be shown of the store's index, which has to be complete.
pub(crate) fn show_range<D: Device, W: Write>(
    alloc: Global,
    store: &Store<D>,
    shown: &Shown,
    output: &mut W,
) -> Result<(), Refused> {
    refuse_incomplete(store.life())?;
    match print(alloc, store, shown, output)? {
        Outcome::Refused(error) => Err(Refused::Store(error)),
        _ => Ok(()),
    }
}
