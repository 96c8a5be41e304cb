//! The beginning and the end of an index under a handle, its redo and its reopening.
ghost use Rattle.std.specs.Prelude.{◌≡◌, ◌⊎◌, IfErr, IfOk, OnOk, true, false};
ghost use Rattle.record_values.specs.declared.error.Error.{Error};
ghost use Rattle.nsf_index_c.specs.Handles.{IsOpen, IsVacant, Serves};
ghost use Rattle.nsf_index_c.specs.Opening.{IsMade, IsSize, MakesIndex, Redoes, Reopens};

use crate::handle::Handle;
use crate::held::Held;
use crate::numbers::{ALREADY_OPEN, BAD_RECORD, NOT_EMPTIED, NOT_OPEN, OK, number_of, status_of};
use online_notes::decode;
use record_values::Error;
use std::alloc::Global;

// The version of the header that this library serves.
const VERSION: u32 = 1;

impl Held {
    // Sets what a record says.
    fn redo(&mut self, record: &[u8]) -> u32
        ensures { Redoes record.now result self.old self.new }
    {
        let Some(note) = decode(record) else {
            return BAD_RECORD;
        };
        if !self.is_redone {
            return NOT_EMPTIED;
        }
        status_of(self.index.redo(&note))
    }

    // The builder goes on above its checkpoint.
    fn reopen(&mut self, pages: u32) -> u32
        ensures { Reopens pages result self.old self.new }
    {
        if !self.is_redone {
            return NOT_EMPTIED;
        }
        self.index.reopen(pages);
        self.is_redone = false;
        OK
    }
}

/// The version of the library.
#[unsafe(no_mangle)]
pub extern "C" fn nsf_index_version() -> u32
    ensures { result ≡ 1 }
{
    VERSION
}

// A new index in a box.
fn boxed(alloc: Global, entries: u32, pages: u32, is_redone: bool) -> Result<Box<Held>, Error>
    ensures made { IfOk result (λ held. IsMade entries pages is_redone held.value) }
    ensures size { OnOk result (IsSize entries) }
    ensures refused { IfErr result (λ e. ((e ≡ Error.BadGeometry) × (¬ IsSize entries))
        ⊎ ((e ≡ Error.NoMemory) × IsSize entries)) }
{
    let held = Held::new(alloc, entries, pages, is_redone)?;
    Ok(Box::new(alloc, held)?)
}

// Opens a new index under the handle, where none is open.
fn open(alloc: Global, handle: &mut Handle, entries: u32, pages: u32, is_redone: bool) -> u32
    ensures { MakesIndex entries pages is_redone result handle.old handle.new }
{
    if let Some(held) = handle.take(alloc) {
        handle.put(held);
        return ALREADY_OPEN;
    }
    match boxed(alloc, entries, pages, is_redone) {
        Ok(held) => {
            handle.put(held);
            OK
        }
        Err(error) => number_of(error),
    }
}

/// Creates an index, which is to be built: of at most so many entries, over so many pages.
#[unsafe(no_mangle)]
pub extern "C" fn nsf_index_create(
    alloc: Global,
    handle: &mut Handle,
    entries: u32,
    pages: u32,
) -> u32
    ensures { MakesIndex entries pages false result handle.old handle.new }
{
    open(alloc, handle, entries, pages, false)
}

/// Makes an index with no entry, to be redone and then reopened.
#[unsafe(no_mangle)]
pub extern "C" fn nsf_index_empty(alloc: Global, handle: &mut Handle, entries: u32) -> u32
    ensures { MakesIndex entries 0 true result handle.old handle.new }
{
    open(alloc, handle, entries, 0, true)
}

/// Sets what a record says: its bytes, without the byte of its length.
#[unsafe(no_mangle)]
pub extern "C" fn nsf_index_redo(alloc: Global, handle: &mut Handle, record: &[u8]) -> u32
    ensures { Serves (Redoes record.now result) result handle.old handle.new }
{
    let Some(mut held) = handle.take(alloc) else {
        return NOT_OPEN;
    };
    let status = held.redo(record);
    handle.put(held);
    status
}

/// After redo: the builder goes on above its checkpoint.
#[unsafe(no_mangle)]
pub extern "C" fn nsf_index_reopen(alloc: Global, handle: &mut Handle, pages: u32) -> u32
    ensures { Serves (Reopens pages result) result handle.old handle.new }
{
    let Some(mut held) = handle.take(alloc) else {
        return NOT_OPEN;
    };
    let status = held.reopen(pages);
    handle.put(held);
    status
}

/// Lets the index go, with the records that wait.
#[unsafe(no_mangle)]
pub extern "C" fn nsf_index_close(alloc: Global, handle: &mut Handle) -> u32
    ensures status { ((result ≡ 0) × IsOpen handle.old) ⊎ ((result ≡ 28) × IsVacant handle.old) }
    ensures vacant { IsVacant handle.new }
{
    match handle.take(alloc) {
        Some(_held) => OK,
        None => NOT_OPEN,
    }
}
