//! Of a disk with a store of version 1: how large that is, and how it is moved.
ghost use Rattle.std.specs.Prelude.{◌≡◌, ◌≢◌, ◌↔◌, IsTrue, OnOk, IfOk, IfErr};
ghost use Rattle.sector_device.specs.DevicePast.{OnlyReads};
ghost use Rattle.record_values.specs.declared.version.Version.TheVariants.{One};
ghost use Rattle.store_reader.specs.Contents.{HasHeaderIn};
ghost use Rattle.restart.specs.Migrating.{IsNotMigrated, IsSmallAnswer, IsTooSmall, WritesTheStoreAlone};
ghost use Rattle.store_moving.specs.Moved.{HoldsStoreOf, IsNotVersionOne, IsStoreOf};

use flip_image::Halves;
use records::{Error, Geometry, Version};
use restart::{MigrateError, migrate};
use sector_device::Device;
use std::alloc::Allocator;

/// Why a disk holds no store of version 1.
#[derive(Clone, Copy, Debug, PartialEq, Eq)]
pub enum NotVersionOne {
    /// It holds one of version 2.
    Newer,
    /// A reader of version 1 refuses it so.
    Refused(Error),
}

// Whether the disk failed.
fn is_failure(error: Error) -> bool
    ensures { IsTrue result ↔ (error ≡ Error.DeviceFailed) }
{
    matches!(error, Error::DeviceFailed)
}

/// How large the store of version 1 on the disk is. Nothing is written.
///
/// `Newer` where a store of version 2 is on the disk. Else the refusal is that of `Halves::open_in`: `DeviceFailed`
/// where the disk failed in the call, and only then.
pub fn old_geometry<D: Device>(disk: &mut D) -> Result<Geometry, NotVersionOne>
    ensures found { IfOk result (λ geometry. IsStoreOf One geometry (D.past_of disk.old).disk.content) }
    ensures refused { IfErr result (IsNotVersionOne (D.past_of disk.old).disk.content (D.failures disk.old)
        (D.failures disk.new)) }
    ensures kept { OnlyReads (D.past_of disk.old) (D.past_of disk.new) }
    ensures told { IfErr result (λ e. e ≢ NotVersionOne.Refused Error.DeviceFailed
        → D.failures disk.new ≡ D.failures disk.old) }
    ensures quiet { OnOk result (D.failures disk.new ≡ D.failures disk.old) }
{
    let refusal = match Halves::open_in(Version::One, disk) {
        Ok(halves) => return Ok(halves.geometry()),
        Err(refusal) => refusal,
    };
    if is_failure(refusal) {
        return Err(NotVersionOne::Refused(refusal));
    }
    let other = match Halves::open(disk) {
        Ok(_) => return Err(NotVersionOne::Newer),
        Err(other) => other,
    };
    if is_failure(other) {
        return Err(NotVersionOne::Refused(other));
    }
    Err(NotVersionOne::Refused(refusal))
}

/// Moves the store of version 1 on the old disk to the new one, which is given back. The old one is only read.
///
/// The refusals are those of `migrate`, in that order: where the old disk gives something by version 1 and the new one
/// has too few sectors for it, that is told, unless the old disk failed or there was no memory to read it (`too_small`,
/// `room`).
pub fn move_disk<O: Device, N: Device, A: Allocator + Copy>(
    alloc: A,
    old: &mut O,
    new: N,
) -> Result<N, (MigrateError, N)>
    ensures moved { IfOk result (λ disk. HoldsStoreOf (O.past_of old.old).disk.content (N.past_of disk).disk) }
    ensures refused { IfErr result (λ r. IsNotMigrated (O.past_of old.old).disk.content (O.failures old.old)
        (O.failures old.new) N.past_of N.failures new r.1 r.0) }
    ensures kept { OnlyReads (O.past_of old.old) (O.past_of old.new) }
    ensures around { IfOk result (λ disk. WritesTheStoreAlone (O.past_of old.old).disk.content N.past_of new disk) }
    ensures memory { IfErr result (λ r. r.0 ≡ MigrateError.NoMemory
        → HasHeaderIn One (O.past_of old.old).disk.content) }
    ensures room { OnOk result (IsTooSmall (O.past_of old.old).disk.content (N.past_of new).disk.content → ⊥) }
    ensures too_small { IsTooSmall (O.past_of old.old).disk.content (N.past_of new).disk.content
        → IfErr result (λ r. IsSmallAnswer r.0) }
    ensures told { IfErr result (λ r. r.0 ≢ MigrateError.Old Error.DeviceFailed
        → O.failures old.new ≡ O.failures old.old) }
    ensures quiet { IfOk result (λ disk. (O.failures old.new ≡ O.failures old.old)
        × (N.failures disk ≡ N.failures new)) }
{
    let engine = migrate(alloc, old, new)?;
    Ok(engine.into_device())
}
