//! A store is made, opened and closed.
ghost use Rattle.std.specs.Prelude.{◌≡◌, ◌≢◌, ◌<ℤ◌, ◌≤ℤ◌, pos, Some, IfOk, IfErr, false};
ghost use Rattle.record_values.specs.Refusals.{number_of};
ghost use Rattle.store_file.specs.FileDisk.{past_of};
ghost use Rattle.program_commands.specs.Guarded.{knows_failure, store_of};
ghost use Rattle.program_commands.specs.Store.{OpensOn};
ghost use Rattle.nsf_c.specs.Calls.{Is, IsDisk, IsMade, IsNeeded, IsNotMade, IsNotOpened, IsOpenedOn, sectors_of};
ghost use Rattle.nsf_c.specs.Unopened.{error_of, IsUnmade, IsUnopened, IsUnopenedOn};
ghost use Rattle.nsf_c.specs.Handles.{Holds, IsOpen, IsVacant};
ghost use Rattle.nsf_c.specs.declared.below.Below.TheVariants.{Line, Memory};

use crate::below::Below;
use crate::handle::Handle;
use crate::held::Held;
use crate::unopened::Unopened;
use flip_image::Halves;
use program_commands::{GuardedStore, Store};
use records::{Error, Geometry};
use sector_device::{Device, SECTOR_SIZE};
use std::alloc::Global;
use store_file::FileDisk;

// What is below, where the descriptor is of a line, or is none.
fn below(line: i32) -> Below
    ensures memory { line <ℤ pos 0 → result ≡ Memory }
    ensures on_line { pos 0 ≤ℤ line → result ≡ Line line }
{
    if line < 0 {
        Below::Memory
    } else {
        Below::Line(line)
    }
}

/// How many sectors a store of this geometry needs, or 0 where one of the numbers is outside its limits.
#[unsafe(no_mangle)]
pub extern "C" fn nsf_sectors(pages: u32, entries: u32, slots: u32) -> u64
    ensures { IsNeeded (record { pages = pages; entries = entries; slots = slots }) result }
{
    match Geometry::large(pages, entries, slots) {
        Ok(geometry) => geometry.sectors(),
        Err(_) => 0,
    }
}

// Opens the store on the disk, which comes back where a restart refuses it.
fn open_on(alloc: Global, disk: FileDisk<Below, Global>) -> Result<Box<Held>, Unopened>
    ensures ok { IfOk result (λ held. OpensOn past_of disk (store_of held.value.store)) }
    ensures sound { IfOk result (λ held. knows_failure held.value.store ≡ false) }
    ensures err { IfErr result (IsUnopenedOn disk) }
{
    match Store::open(alloc, disk) {
        Ok(store) => {
            let store = GuardedStore::new(store);
            let Ok(held) = Box::new(alloc, Held { store }) else {
                return Err(Unopened::NoMemory);
            };
            Ok(held)
        }
        Err((error, disk)) => Err(Unopened::Refused(error, disk)),
    }
}

// Opens the store that these sectors hold.
fn open_sectors(
    alloc: Global,
    line: i32,
    sectors: &[[u8; SECTOR_SIZE]],
) -> Result<Box<Held>, Unopened>
    ensures ok { IfOk result (λ held. IsOpenedOn (Is sectors.now) held.value.store) }
    ensures err { IfErr result (IsUnopened (Is sectors.now)) }
{
    let Ok(disk) = FileDisk::holding(alloc, below(line), sectors) else {
        return Err(Unopened::NoMemory);
    };
    open_on(alloc, disk)
}

// A disk on which a store was made. Where a call of it failed, it comes back, and counts that.
fn formatted(
    alloc: Global,
    line: i32,
    geometry: Geometry,
) -> Result<FileDisk<Below, Global>, Unopened>
    ensures ok { IfOk result (IsDisk (IsMade geometry)) }
    ensures err { IfErr result (IsUnmade geometry) }
{
    let Ok(mut disk) = FileDisk::new(alloc, below(line), geometry.sectors() as usize) else {
        return Err(Unopened::NoMemory);
    };
    match Halves::format(&mut disk, geometry) {
        Ok(()) => Ok(disk),
        Err(_) => Err(Unopened::Failed(disk)),
    }
}

// Makes a store and opens it.
fn make(alloc: Global, line: i32, geometry: Geometry) -> Result<Box<Held>, Unopened>
    ensures ok { IfOk result (λ held. IsOpenedOn (IsMade geometry) held.value.store) }
    ensures err { IfErr result (IsUnmade geometry) }
{
    let disk = formatted(alloc, line, geometry)?;
    open_on(alloc, disk)
}

// Puts what was opened under the handle. Answers 0, or the number of the refusal.
fn put_opened(handle: &mut Handle, opened: Result<Box<Held>, Unopened>) -> u32
    requires { IsVacant handle.old }
    ensures ok { IfOk opened (λ held. (result ≡ 0) × (handle.new.value ≡ Some held.value)) }
    ensures err { IfErr opened (λ e. (result ≡ number_of (error_of e)) × IsVacant handle.new) }
{
    match opened {
        Ok(held) => {
            handle.put(held);
            0
        }
        Err(unopened) => u32::from(unopened.error().number()),
    }
}

/// Makes a store of this geometry and opens it under the handle: in memory where the line is negative, else on the
/// line, at whose other end are as many sectors of zeros as `nsf_sectors` tells. Answers 0, or the number of the
/// refusal.
#[unsafe(no_mangle)]
pub extern "C" fn nsf_create(
    alloc: Global,
    handle: &mut Handle,
    line: i32,
    pages: u32,
    entries: u32,
    slots: u32,
) -> u32
    requires { IsVacant handle.old }
    ensures made { result ≡ 0 → Holds (IsOpenedOn (IsMade (record { pages = pages; entries = entries; slots = slots })))
        handle.new }
    ensures refused { result ≢ 0 → IsVacant handle.new
        × IsNotMade (record { pages = pages; entries = entries; slots = slots }) result }
{
    match Geometry::large(pages, entries, slots) {
        Ok(geometry) => put_opened(handle, make(alloc, line, geometry)),
        Err(error) => u32::from(error.number()),
    }
}

/// Opens the store that the bytes hold, as whole sectors, under the handle: in memory where the line is negative, else
/// on the line, at whose other end are the same sectors, all of them safe. Answers 0, or the number of the refusal.
#[unsafe(no_mangle)]
pub extern "C" fn nsf_open(alloc: Global, handle: &mut Handle, line: i32, bytes: &[u8]) -> u32
    requires { IsVacant handle.old }
    ensures opened { result ≡ 0 → Holds (IsOpenedOn (Is (sectors_of bytes.now))) handle.new }
    ensures refused { result ≢ 0 → IsVacant handle.new × IsNotOpened (sectors_of bytes.now) result }
{
    let (sectors, _) = bytes.as_chunks::<SECTOR_SIZE>();
    put_opened(handle, open_sectors(alloc, line, sectors))
}

/// Closes the store under the handle. What was not flushed is lost. (What closing leaves at the line's other end, no
/// clause says.)
#[unsafe(no_mangle)]
pub extern "C" fn nsf_close(alloc: Global, handle: &mut Handle)
    requires { IsOpen handle.old }
    ensures { IsVacant handle.new }
{
    let _held = handle.take(alloc);
}
