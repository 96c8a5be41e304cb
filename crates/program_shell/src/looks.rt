//! What is shown of a store that is only read.
use crate::scan::{Shown, refuse_incomplete, show_range};
use crate::show::write_stat;
use block_host::{InFile, read_device};
use nsf_core::Core;
use program_arguments::{Export, Order};
use program_commands::Store;
use program_files::{Refused, Stored, open_store, read_disk, refuse_damaged, write_damaged};
use program_rows::{
    RowsError, TextError, export_by_key, export_by_place, export_json_by_key, export_json_by_place,
};
use records::Error;
use sector_device::Device;
use std::alloc::Global;
use std::fs::File;
use std::io::Write;
use std::rt::Files;
use store_file::Troubled;

/// What is to be shown of a store.
#[derive(Clone, Copy)]
pub(crate) enum Look<'a> {
    /// Whether its index fits its rows; and each damaged sector of its file.
    Check,
    /// All that it holds.
    Dump,
    /// What it is, and how far it has come.
    Stat,
    /// Its rows, so.
    Export(Export),
    /// A range of its index.
    Scan(&'a Shown),
}

// Says whether the store's index fits its rows.
fn check<D: Device, W: Write>(store: &Store<D>, output: &mut W) -> Result<(), Refused> {
    if !store.core().can_open() {
        return Err(Refused::Unsound);
    }
    writeln!(output, "sound")?;
    Ok(())
}

// Why rows weren't exported.
fn not_exported(error: RowsError) -> Refused {
    match error {
        RowsError::Text(TextError::Io(error)) => Refused::Stream(error),
        RowsError::Text(_) => Refused::Store(Error::NoMemory),
        RowsError::Store(error) => Refused::Store(error),
    }
}

// Prints the rows of a core, as fields or as objects, in the order that is asked for.
fn export_core<W: Write>(
    alloc: Global,
    core: &Core<Global>,
    asked: Export,
    output: &mut W,
) -> Result<(), RowsError> {
    match (asked.order, asked.is_json) {
        (Order::Place, false) => export_by_place(alloc, core, output),
        (Order::Place, true) => export_json_by_place(alloc, core, output),
        (Order::Key, false) => export_by_key(alloc, core, output),
        (Order::Key, true) => export_json_by_key(alloc, core, output),
    }
}

// Prints the rows of the store. In the order of the index only where that is complete.
fn export<D: Device, W: Write>(
    alloc: Global,
    store: &Store<D>,
    asked: Export,
    output: &mut W,
) -> Result<(), Refused> {
    if let Order::Key = asked.order {
        refuse_incomplete(store.life())?;
    }
    match export_core(alloc, store.core(), asked, output) {
        Ok(()) => Ok(()),
        Err(error) => Err(not_exported(error)),
    }
}

// Shows what is asked for of the store.
fn look_at<D: Device, W: Write>(
    alloc: Global,
    stored: &Stored,
    store: &Store<D>,
    look: Look<'_>,
    output: &mut W,
) -> Result<(), Refused> {
    let shown = match look {
        Look::Check => return check(store, output),
        Look::Export(asked) => return export(alloc, store, asked, output),
        Look::Scan(shown) => return show_range(alloc, store, shown, output),
        Look::Dump => store.dump(output),
        Look::Stat => write_stat(stored, store.core(), output),
    };
    Ok(shown?)
}

// Refused where a sector of the disk is damaged. A check prints each.
fn refuse_harm<D: InFile + Troubled, W: Write>(
    disk: &mut D,
    look: Look<'_>,
    output: &mut W,
) -> Result<(), Refused> {
    match look {
        Look::Check => write_damaged(disk, output),
        _ => refuse_damaged(disk),
    }
}

// Shows what is asked for of the store on the disk. What a file is, is behind none of the store's own calls.
fn look_on<D: Device + Troubled + InFile + Drop, W: Write>(
    alloc: Global,
    mut disk: D,
    look: Look<'_>,
    output: &mut W,
) -> Result<(), Refused> {
    refuse_harm(&mut disk, look, output)?;
    let stored = read_disk(alloc, &mut disk)?;
    let store = open_store(alloc, disk)?;
    let looked = look_at(alloc, &stored, &store, look, output);
    drop(store.into_device());
    looked
}

/// Shows what is asked for of the store in the file, which is only read.
pub(crate) fn look_in<R: Files<File = File> + AllocGlobal, W: Write>(
    rt: &R,
    path: &str,
    look: Look<'_>,
    output: &mut W,
) -> Result<(), Refused> {
    let disk = read_device(rt, rt.alloc(), path)?;
    look_on(rt.alloc(), disk, look, output)
}
