//! A store of version 1 is moved to another device.
ghost use Rattle.std.specs.Prelude.{◌≡◌, ◌≢◌, ◌<◌, ◌≤◌, length, OnOk, IfOk, IfErr};
ghost use Rattle.sector_device.specs.DevicePast.{OnlyReads};
ghost use Rattle.sector_device.specs.Disk.{IsSynced, SameOutside};
ghost use Rattle.record_values.specs.GeometryValue.{sectors_of};
ghost use Rattle.record_values.specs.declared.version.Version.TheVariants.{One};
ghost use Rattle.model.specs.Given.{opening_cells};
ghost use Rattle.store_image_half.specs.Source.{FitsImage};
ghost use Rattle.flip_image.specs.Store.{IsDeviceFailure, IsStore};
ghost use Rattle.store_reader.specs.Restored.{given_in};
ghost use Rattle.store_reader.specs.Contents.{HasHeaderIn};
ghost use Rattle.nsf_core.specs.Value.{value_of};
ghost use Rattle.restart.specs.Parts.{device_of};
ghost use Rattle.restart.specs.Migrating.{BeginsEmpty, IsFilled, IsMigrated, IsMigratedCore, IsNotFilled};
ghost use Rattle.restart.specs.Migrating.{IsNotMigrated, IsSmallAnswer, IsToldOfOld, IsTooSmall, WritesTheStoreAlone};

use crate::Engine;
use crate::parts::EngineParts;
use core_copies::{each_list, load};
use core_model::each_half;
use flip_image::Halves;
use gate_log::LogArea;
use nsf_core::Core;
use records::{Error, Geometry, Version};
use sector_device::Device;
use std::alloc::Allocator;
use store_opener::write_over;
use store_reader::{Restored, one_old_answer, read_store_in, room_for_given};

/// Why a store wasn't moved.
#[derive(Clone, Copy, Debug, PartialEq, Eq, thiserror::Error)]
pub enum MigrateError {
    /// The old device failed, or holds no store of version 1, or one that was harmed.
    #[error("the old device: {0}")]
    Old(Error),
    /// The new device is too small, or failed.
    #[error("the new device: {0}")]
    New(Error),
    /// An allocation was refused.
    #[error("no memory")]
    NoMemory,
}

/// Moves the store of version 1 on the old device to the new one, in version 2 and with the same geometry, and opens it
/// there. What transactions did that neither committed nor ended is taken back. The old device is only read (`kept`),
/// as it is: the caller has synced it.
///
/// `Old` where the old device failed in the call, or gives nothing by version 1: `DeviceTooSmall`, `NotFormatted` or
/// `Damaged` as `read_store_in` answers them, and `Damaged` with sector 0 of a store of another version. Then nothing
/// was written. `New` where the new device has too few sectors, and then nothing was written either, or else where it
/// failed. `NoMemory` comes before anything is written too, and only where the old device holds a store of version 1
/// whose current half begins with a header (`memory`).
///
/// Of faults that are met together the first of these is answered: `New` comes only where the old device gives
/// something, and with `DeviceFailed` only where the new one has room for it (`refused`). Where it gives something and
/// the new one has no room, that is the answer, unless the old device failed, or there was no memory to read it
/// (`too_small`, `room`). `NoMemory` may come while the old device is read, before a fault that a later sector has.
/// Where the old device failed in the call, that is what is told (`told`). After `New` with `DeviceFailed`, and after a
/// crash within the call, the new device may hold anything: the call is made again.
///
/// The new store's log is empty, and no image of it is under way (`emptied`). The sectors behind the store are as they
/// were (`around`).
pub fn migrate<O: Device, N: Device, A: Allocator + Copy>(
    alloc: A,
    old: &mut O,
    mut new: N,
) -> Result<Engine<N, A>, (MigrateError, N)>
    ensures migrated { IfOk result (λ engine. IsMigrated (O.past_of old.old).disk.content N.past_of engine) }
    ensures emptied { IfOk result (λ engine. BeginsEmpty engine) }
    ensures around { IfOk result (λ engine. WritesTheStoreAlone (O.past_of old.old).disk.content N.past_of new
        (device_of engine)) }
    ensures kept { OnlyReads (O.past_of old.old) (O.past_of old.new) }
    ensures refused { IfErr result (λ r. IsNotMigrated (O.past_of old.old).disk.content (O.failures old.old)
        (O.failures old.new) N.past_of N.failures new r.1 r.0) }
    ensures memory { IfErr result (λ r. r.0 ≡ MigrateError.NoMemory
        → HasHeaderIn One (O.past_of old.old).disk.content) }
    ensures room { OnOk result (IsTooSmall (O.past_of old.old).disk.content (N.past_of new).disk.content → ⊥) }
    ensures too_small { IsTooSmall (O.past_of old.old).disk.content (N.past_of new).disk.content
        → IfErr result (λ r. IsSmallAnswer r.0) }
    ensures told { IfErr result (λ r. r.0 ≢ MigrateError.Old Error.DeviceFailed
        → O.failures old.new ≡ O.failures old.old) }
    ensures quiet { IfOk result (λ engine. (O.failures old.new ≡ O.failures old.old)
        × (N.failures (device_of engine) ≡ N.failures new)) }
{
    each_half();
    each_list();
    match move_store(alloc, old, &mut new) {
        Ok((core, halves, log)) => {
            let parts = EngineParts::over(alloc, new, core, halves, log);
            Ok(Engine { parts })
        }
        Err(error) => Err((error, new)),
    }
}

// Loads what the old device gives into a core, and writes it on the new one.
fn move_store<O: Device, N: Device, A: Allocator + Copy>(
    alloc: A,
    old: &mut O,
    new: &mut N,
) -> Result<(Core<A>, Halves, LogArea), MigrateError>
    ensures moved { IfOk result (λ r. IsMigratedCore (O.past_of old.old).disk.content (N.past_of new.new) r.1 r.2
        (value_of r.0)) }
    ensures empty { IfOk result (λ r. r.2.open_slots ≡ 0) }
    ensures around { OnOk result (WritesTheStoreAlone (O.past_of old.old).disk.content N.past_of new.old new.new) }
    ensures kept { OnlyReads (O.past_of old.old) (O.past_of old.new) }
    ensures refused { IfErr result (IsNotMigrated (O.past_of old.old).disk.content (O.failures old.old)
        (O.failures old.new) N.past_of N.failures new.old new.new) }
    ensures memory { IfErr result (λ e. e ≡ MigrateError.NoMemory → HasHeaderIn One (O.past_of old.old).disk.content) }
    ensures room { OnOk result (IsTooSmall (O.past_of old.old).disk.content (N.past_of new.old).disk.content → ⊥) }
    ensures too_small { IsTooSmall (O.past_of old.old).disk.content (N.past_of new.old).disk.content
        → IfErr result IsSmallAnswer }
    ensures told { IfErr result (λ e. e ≢ MigrateError.Old Error.DeviceFailed
        → O.failures old.new ≡ O.failures old.old) }
    ensures quiet { OnOk result ((O.failures old.new ≡ O.failures old.old)
        × (N.failures new.new ≡ N.failures new.old)) }
{
    room_for_given();
    one_old_answer();
    match read_store_in(alloc, Version::One, old) {
        Ok(found) => fill(alloc, new, found.restored),
        Err(error) => Err(refusal_of_old(error)),
    }
}

// Why nothing is moved where the old store isn't read.
fn refusal_of_old(error: Error) -> MigrateError
    ensures { IsToldOfOld error result }
{
    match error {
        Error::NoMemory => MigrateError::NoMemory,
        _ => MigrateError::Old(error),
    }
}

// Makes the device a store of this geometry, and opens it.
fn format<D: Device>(device: &mut D, geometry: Geometry) -> Result<Halves, Error>
    requires { sectors_of geometry ≤ length (D.past_of device.old).disk.content }
    ensures geometry { IfOk result (λ halves. halves.geometry ≡ geometry) }
    ensures store { IfOk result (λ halves. IsStore halves.geometry halves.current (D.past_of device.new).disk.content) }
    ensures synced { OnOk result (IsSynced (D.past_of device.new).disk) }
    ensures around { OnOk result (SameOutside (λ n. n < sectors_of geometry) (D.past_of device.old).disk.content
        (D.past_of device.new).disk.content) }
    ensures refused { IfErr result (IsDeviceFailure (D.failures device.old) (D.failures device.new)) }
    ensures quiet { OnOk result (D.failures device.new ≡ D.failures device.old) }
{
    Halves::format(device, geometry)?;
    Halves::open(device)
}

// Loads what was restored into a core, and then makes the device a store of it.
fn fill<D: Device, A: Allocator + Copy>(
    alloc: A,
    device: &mut D,
    restored: Restored<A>,
) -> Result<(Core<A>, Halves, LogArea), MigrateError>
    requires { FitsImage restored.geometry (opening_cells (given_in restored)) }
    ensures filled { IfOk result (λ r. IsFilled restored.geometry (given_in restored) (D.past_of device.new) r.1 r.2
        (value_of r.0)) }
    ensures empty { IfOk result (λ r. r.2.open_slots ≡ 0) }
    ensures room { OnOk result (sectors_of restored.geometry ≤ length (D.past_of device.old).disk.content) }
    ensures around { OnOk result (SameOutside (λ n. n < sectors_of restored.geometry)
        (D.past_of device.old).disk.content (D.past_of device.new).disk.content) }
    ensures refused { IfErr result (IsNotFilled restored.geometry D.past_of D.failures device.old device.new) }
    ensures quiet { OnOk result (D.failures device.new ≡ D.failures device.old) }
{
    if device.sectors() < restored.geometry.sectors() {
        drop(restored);
        return Err(MigrateError::New(Error::DeviceTooSmall));
    }
    let Ok(core) = load(alloc, &restored) else {
        drop(restored);
        return Err(MigrateError::NoMemory);
    };
    let halves = match format(device, restored.geometry) {
        Ok(halves) => halves,
        Err(error) => {
            drop(core);
            drop(restored);
            return Err(MigrateError::New(error));
        }
    };
    match write_over(alloc, device, halves, restored) {
        Ok(made) => Ok((core, made.halves, made.log)),
        Err(_) => {
            drop(core);
            Err(MigrateError::New(Error::DeviceFailed))
        }
    }
}
