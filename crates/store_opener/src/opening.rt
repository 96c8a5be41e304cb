//! A store is read and written back, or written over.
ghost use Rattle.std.specs.Prelude.{◌≡◌, ◌≢◌, ◌⊎◌, ◌≤◌, ℕ, true, [], OnOk, IfOk, IfErr};
ghost use Rattle.sector_device.specs.Disk.{IsCrashState, IsSynced, SameOutside};
ghost use Rattle.sector_device.specs.DevicePast.{LeavesOnly, CountsFailure};
ghost use Rattle.record_values.specs.GeometryValue.{GeometryValue};
ghost use Rattle.model.specs.Given.{Given, opening_cells};
ghost use Rattle.model.specs.Redo.{cells_of};
ghost use Rattle.store_image_half.specs.Source.{FitsImage};
ghost use Rattle.gate_log.specs.Area.{Refuses, Stands};
ghost use Rattle.store_reader.specs.Restored.{given_in};
ghost use Rattle.flip_image.specs.Layout.{other, InHalf, InHalfImage};
ghost use Rattle.flip_image.specs.Store.{IsStore, HoldsImage};
ghost use Rattle.store_reader.specs.Contents.{Gives, HasHeader, IsUnreadable, log_area};
ghost use Rattle.store_writer.specs.Writer.{IsOpenedAt};
ghost use Rattle.store_opener.specs.Reopening.{IsOverwritten, IsWrittenBack};

use flip_image::Halves;
use gate_log::LogArea;
use model::{CellMaps, ListMap};
use records::Error;
use sector_device::{Device, Failed};
use std::alloc::Allocator;
use store_reader::{Found, Restored, read_store, room_for_given};
use store_writer::write_whole;

/// What was written into the half of a store that wasn't current. That half is current now: it has the image of what
/// was restored, and an empty log.
#[derive(Clone, Copy)]
pub struct Reopened {
    /// The store's halves.
    pub halves: Halves,
    /// The log of its current half.
    pub log: LogArea,
}

/// Syncs the device, and reads the store on it. What the transactions did that neither committed nor ended is taken
/// back in the answer. Nothing is written: the device holds what it held (`kept`), and a crash at any moment of the
/// call leaves what one before it could (`images`), whatever the answer.
///
/// `DeviceTooSmall`, `NotFormatted`, `OldVersion` and `Damaged` where the device holds no store, one of version 1, or
/// one that was harmed. `NoMemory` comes only where it holds a store whose current half begins with a header
/// (`memory`). With each of these the device is synced (`settled`). `DeviceFailed` comes where the device failed in the
/// call, and only then.
pub fn sync_and_read<D: Device, A: Allocator + Copy>(
    alloc: A,
    device: &mut D,
) -> Result<Found<A>, Error>
    ensures gives { IfOk result (λ found. Gives (D.past_of device.old).disk.content found.halves.geometry
        (given_in found.restored)) }
    ensures store { IfOk result (λ found. IsStore found.halves.geometry found.halves.current
        (D.past_of device.old).disk.content) }
    ensures geometry { IfOk result (λ found. found.restored.geometry ≡ found.halves.geometry) }
    ensures synced { OnOk result (IsSynced (D.past_of device.new).disk) }
    ensures kept { (D.past_of device.new).disk.content ≡ (D.past_of device.old).disk.content }
    ensures images { LeavesOnly (D.past_of device.old) (D.past_of device.new)
        (IsCrashState (D.past_of device.old).disk) }
    ensures accepted { (geometry : GeometryValue) (given : Given)
        → Gives (D.past_of device.old).disk.content geometry given
        → IfErr result (Refuses (D.failures device.old) (D.failures device.new)) }
    ensures refused { IfErr result (λ e. Refuses (D.failures device.old) (D.failures device.new) e
        ⊎ IsUnreadable (D.past_of device.old).disk.content e) }
    ensures memory { IfErr result (λ e. e ≡ Error.NoMemory → HasHeader (D.past_of device.old).disk.content) }
    ensures settled { IfErr result (λ e. e ≢ Error.DeviceFailed → IsSynced (D.past_of device.new).disk) }
    ensures quiet { OnOk result (D.failures device.new ≡ D.failures device.old) }
    ensures told { IfErr result (λ e. e ≢ Error.DeviceFailed → D.failures device.new ≡ D.failures device.old) }
    ensures later { D.failures device.old ≤ D.failures device.new }
{
    match device.sync() {
        Ok(()) => read_store(alloc, device),
        Err(Failed) => Err(Error::DeviceFailed),
    }
}

/// Writes what the store gives, as it was read of the synced device, as an image into the half that isn't current, with
/// an empty log, and makes that half current (`halves`, `opened`). The half that was read is never written.
///
/// At each moment of the call a crash leaves what gives the same as the device did (`images`). So the device does,
/// whatever the answer (`written`): where it failed it can be opened again, and gives the same. What that says of a
/// device, the law `written_back` tells.
pub fn write_back<D: Device, A: Allocator + Copy>(
    alloc: A,
    device: &mut D,
    halves: Halves,
    restored: Restored<A>,
) -> Result<Reopened, Failed>
    requires synced { IsSynced (D.past_of device.old).disk }
    requires store { IsStore halves.geometry halves.current (D.past_of device.old).disk.content }
    requires gives { Gives (D.past_of device.old).disk.content halves.geometry (given_in restored) }
    ensures halves { IfOk result (λ r. r.halves ≡ record {
      geometry = halves.geometry;
      current = other halves.current;
    }) }
    ensures opened { IfOk result (λ r. IsOpenedAt (D.past_of device.new) r.halves r.log restored.last
        (opening_cells (given_in restored))) }
    ensures empty { IfOk result (λ r. r.log.open_slots ≡ 0) }
    ensures images { LeavesOnly (D.past_of device.old) (D.past_of device.new)
        (IsWrittenBack (D.past_of device.old).disk.content) }
    ensures written { IsWrittenBack (D.past_of device.old).disk.content (D.past_of device.new).disk.content }
    ensures counts { CountsFailure (D.failures device.old) (D.failures device.new) result }
{
    room_for_given();
    write_over(alloc, device, halves, restored)
}

/// Writes what was restored, of this store or another one, as an image into the half that isn't current, with an empty
/// log, and makes that half current. The store then gives that, whatever it gave before, and is synced (`gives`,
/// `opened`). The half that was current is never written (`images`).
pub fn write_over<D: Device, A: Allocator + Copy>(
    alloc: A,
    device: &mut D,
    halves: Halves,
    restored: Restored<A>,
) -> Result<Reopened, Failed>
    requires synced { IsSynced (D.past_of device.old).disk }
    requires store { IsStore halves.geometry halves.current (D.past_of device.old).disk.content }
    requires fits { FitsImage halves.geometry (opening_cells (given_in restored)) }
    ensures halves { IfOk result (λ r. r.halves ≡ record {
      geometry = halves.geometry;
      current = other halves.current;
    }) }
    ensures opened { IfOk result (λ r. IsOpenedAt (D.past_of device.new) r.halves r.log restored.last
        (opening_cells (given_in restored))) }
    ensures gives { OnOk result (Gives (D.past_of device.new).disk.content halves.geometry (given_in restored)) }
    ensures empty { IfOk result (λ r. r.log.open_slots ≡ 0) }
    ensures images { LeavesOnly (D.past_of device.old) (D.past_of device.new)
        (IsOverwritten halves.geometry halves.current (given_in restored) (D.past_of device.old).disk.content) }
    ensures counts { CountsFailure (D.failures device.old) (D.failures device.new) result }
{
    let log = write_restored(alloc, device, halves, restored)?;
    let mut halves = halves;
    match halves.flip(device) {
        Ok(()) => Ok(Reopened { halves, log }),
        Err(_) => Err(Failed),
    }
}

// Empties the log of the half that isn't current, and writes what was restored as an image into that half. The answer
// is the log.
fn write_restored<D: Device, A: Allocator + Copy>(
    alloc: A,
    device: &mut D,
    halves: Halves,
    restored: Restored<A>,
) -> Result<LogArea, Failed>
    requires synced { IsSynced (D.past_of device.old).disk }
    requires store { IsStore halves.geometry halves.current (D.past_of device.old).disk.content }
    requires fits { FitsImage halves.geometry (opening_cells (given_in restored)) }
    ensures imaged { OnOk result (HoldsImage halves.geometry (other halves.current)
        (D.past_of device.new).disk.content restored.last (opening_cells (given_in restored))) }
    ensures area { IfOk result (λ log. log.area ≡ log_area halves.geometry (other halves.current)) }
    ensures empty { IfOk result (λ log. Stands log (D.past_of device.new).disk.content []) }
    ensures loose { OnOk result ((n : ℕ) → (D.past_of device.new).disk.unsynced n ≡ true
        → InHalfImage halves.geometry (other halves.current) n) }
    ensures outside { SameOutside (InHalf halves.geometry (other halves.current)) (D.past_of device.old).disk.content
        (D.past_of device.new).disk.content }
    ensures any_moment { LeavesOnly (D.past_of device.old) (D.past_of device.new)
        (SameOutside (InHalf halves.geometry (other halves.current)) (D.past_of device.old).disk.content) }
    ensures counts { CountsFailure (D.failures device.old) (D.failures device.new) result }
{
    let last = restored.last;
    let cells = into_cells(alloc, restored);
    let written = write_whole(device, halves, last, &cells);
    drop(cells);
    written
}

// The cells of what was restored, which no transaction has changed.
fn into_cells<A: Allocator + Copy>(alloc: A, restored: Restored<A>) -> CellMaps<A>
    ensures { cells_of result ≡ opening_cells (given_in restored) }
{
    let life = restored.life;
    let Restored { rows, entries, .. } = restored;
    CellMaps {
        rows,
        entries,
        lists: ListMap::new(alloc),
        life,
    }
}
