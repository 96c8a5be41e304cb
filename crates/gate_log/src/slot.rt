// One slot: how its group is written, and how it is read.
ghost use Rattle.std.specs.Prelude.{◌≡◌, ◌≢◌, ◌↔◌, ◌+◌, ◌^◌, ◌≤◌, ◌<◌, List, false, length, OnOk, IfOk, IfErr, IsTrue};
ghost use Rattle.std.specs.Prelude.{MatchOption};
ghost use Rattle.sector_device.specs.Disk.{sector, IsSynced, SameOutside};
ghost use Rattle.sector_device.specs.DevicePast.{RunsWithin, OnlyReads, LeavesOnly, CountsFailure};
ghost use Rattle.sector_device.specs.Values.{marked_sector};
ghost use Rattle.records.specs.RecordValue.{RecordValue};
ghost use Rattle.gate_log.specs.Group.{IsGroupIn};
ghost use Rattle.gate_log.specs.Area.{body, IsOpen, Refuses};
ghost use Rattle.gate_log.specs.Steps.{MayDiffer, IsPartlyWritten};

use crate::group::{BODY_SECTORS, BODY_SIZE, group_records};
use records::{Error, Record, SLOT_SECTORS, Version};
use sector_device::{Device, Failed, SECTOR_SIZE, is_marked, marked_sector};
use std::alloc::Allocator;

// Writes the body behind a gate, and syncs. Until then the body's sectors may hold anything.
fn write_body<D: Device>(device: &mut D, gate: u64, bytes: &[u8]) -> Result<(), Failed>
    requires size { length bytes.now ≡ BODY_SIZE }
    requires inside { gate + SLOT_SECTORS ≤ length (D.past_of device.old).disk.content }
    requires number { gate + SLOT_SECTORS < 2 ^ 64 }
    ensures written { OnOk result (body (D.past_of device.new).disk.content gate ≡ bytes.now) }
    ensures outside { SameOutside (λ n. (gate + 1 ≤ n)
        × (n < gate + SLOT_SECTORS)) (D.past_of device.old).disk.content (D.past_of device.new).disk.content }
    ensures synced { OnOk result (IsSynced (D.past_of device.new).disk) }
    ensures within { RunsWithin (MayDiffer (D.past_of device.old).disk (gate + 1) (gate + SLOT_SECTORS))
        (D.past_of device.old).disk.content (D.past_of device.old) (D.past_of device.new) }
    ensures counts { CountsFailure (D.failures device.old) (D.failures device.new) result }
{
    let (sectors, _) = bytes.as_chunks::<SECTOR_SIZE>();
    for (i, sector) in sectors.iter().enumerate() {
        device.write(gate + 1 + i as u64, sector)?;
    }
    device.sync()
}

// Opens a gate whose body is synced, and syncs. Until then the gate may hold anything.
fn open_gate<D: Device>(device: &mut D, gate: u64) -> Result<(), Failed>
    requires inside { gate < length (D.past_of device.old).disk.content }
    requires synced { IsSynced (D.past_of device.old).disk }
    ensures opened { OnOk result (sector (D.past_of device.new).disk.content gate ≡ marked_sector) }
    ensures synced { OnOk result (IsSynced (D.past_of device.new).disk) }
    ensures within { RunsWithin (λ n. n ≡ gate) (D.past_of device.old).disk.content (D.past_of device.old)
        (D.past_of device.new) }
    ensures counts { CountsFailure (D.failures device.old) (D.failures device.new) result }
{
    let opened = marked_sector();
    device.write(gate, &opened)?;
    device.sync()
}

/// Writes a slot: its body, a sync, its gate, a sync.
pub(crate) fn write_group<D: Device>(device: &mut D, gate: u64, bytes: &[u8]) -> Result<(), Failed>
    requires size { length bytes.now ≡ BODY_SIZE }
    requires inside { gate + SLOT_SECTORS ≤ length (D.past_of device.old).disk.content }
    requires number { gate + SLOT_SECTORS < 2 ^ 64 }
    requires synced { (D.past_of device.old).disk.unsynced gate ≡ false }
    ensures opened { OnOk result (sector (D.past_of device.new).disk.content gate ≡ marked_sector) }
    ensures written { OnOk result (body (D.past_of device.new).disk.content gate ≡ bytes.now) }
    ensures outside { SameOutside (λ n. (gate ≤ n) × (n < gate + SLOT_SECTORS)) (D.past_of device.old).disk.content
        (D.past_of device.new).disk.content }
    ensures synced { OnOk result (IsSynced (D.past_of device.new).disk) }
    ensures any_moment { LeavesOnly (D.past_of device.old) (D.past_of device.new)
        (IsPartlyWritten (D.past_of device.old).disk gate bytes.now) }
    ensures counts { CountsFailure (D.failures device.old) (D.failures device.new) result }
{
    write_body(device, gate, bytes)?;
    open_gate(device, gate)
}

/// Whether the gate is open.
pub(crate) fn is_open<D: Device>(device: &mut D, gate: u64) -> Result<bool, Error>
    requires { gate < length (D.past_of device.old).disk.content }
    ensures value { IfOk result (λ opened. IsTrue opened ↔ IsOpen (D.past_of device.old).disk.content gate) }
    ensures reads { OnlyReads (D.past_of device.old) (D.past_of device.new) }
    ensures quiet { OnOk result (D.failures device.new ≡ D.failures device.old) }
    ensures told { IfErr result (λ e. e ≢ Error.DeviceFailed → D.failures device.new ≡ D.failures device.old) }
    ensures later { D.failures device.old ≤ D.failures device.new }
    ensures refused { IfErr result (Refuses (D.failures device.old) (D.failures device.new)) }
    ensures no_memory { IfErr result (λ e. e ≢ Error.NoMemory) }
{
    let mut sector = [0; SECTOR_SIZE];
    if device.read(gate, &mut sector).is_err() {
        return Err(Error::DeviceFailed);
    }
    Ok(is_marked(&sector))
}

// The bytes behind a gate.
fn read_body<D: Device, A: Allocator>(
    alloc: A,
    device: &mut D,
    gate: u64,
) -> Result<Vec<u8, A>, Error>
    requires inside { gate + SLOT_SECTORS ≤ length (D.past_of device.old).disk.content }
    requires number { gate + SLOT_SECTORS < 2 ^ 64 }
    ensures value { IfOk result (λ bytes. bytes.items ≡ body (D.past_of device.old).disk.content gate) }
    ensures size { IfOk result (λ bytes. length bytes.items ≡ BODY_SIZE) }
    ensures reads { OnlyReads (D.past_of device.old) (D.past_of device.new) }
    ensures quiet { OnOk result (D.failures device.new ≡ D.failures device.old) }
    ensures told { IfErr result (λ e. e ≢ Error.DeviceFailed → D.failures device.new ≡ D.failures device.old) }
    ensures later { D.failures device.old ≤ D.failures device.new }
    ensures refused { IfErr result (Refuses (D.failures device.old) (D.failures device.new)) }
{
    let mut bytes = Vec::with_capacity(alloc, BODY_SIZE)?;
    let mut sector = [0; SECTOR_SIZE];
    for i in 0..BODY_SECTORS {
        if device.read(gate + 1 + i, &mut sector).is_err() {
            return Err(Error::DeviceFailed);
        }
        bytes.extend_from_slice(&sector)?;
    }
    Ok(bytes)
}

/// The records of the group behind a gate, if there is one.
pub(crate) fn read_group<D: Device, A: Allocator + Copy>(
    alloc: A,
    version: Version,
    device: &mut D,
    gate: u64,
) -> Result<Option<Vec<Record, A>>, Error>
    requires inside { gate + SLOT_SECTORS ≤ length (D.past_of device.old).disk.content }
    requires number { gate + SLOT_SECTORS < 2 ^ 64 }
    ensures found { IfOk result (λ found. MatchOption found
        ((records : List RecordValue) → ¬ IsGroupIn version records (body (D.past_of device.old).disk.content gate))
        (λ records. IsGroupIn version records.items (body (D.past_of device.old).disk.content gate))) }
    ensures reads { OnlyReads (D.past_of device.old) (D.past_of device.new) }
    ensures quiet { OnOk result (D.failures device.new ≡ D.failures device.old) }
    ensures told { IfErr result (λ e. e ≢ Error.DeviceFailed → D.failures device.new ≡ D.failures device.old) }
    ensures later { D.failures device.old ≤ D.failures device.new }
    ensures refused { IfErr result (Refuses (D.failures device.old) (D.failures device.new)) }
{
    let bytes = read_body(alloc, device, gate)?;
    group_records(alloc, version, &bytes)
}
