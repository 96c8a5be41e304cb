//! What can be read of a disk is copied.
ghost use Rattle.std.specs.Prelude.{◌≡◌, ◌⊎◌, ◌<◌, ◌≤◌, false, length, IfErr, IfNone, IfOk, IfSome, OnOk};
ghost use Rattle.sector_device.specs.Disk.{SameOutside, sector};
ghost use Rattle.sector_device.specs.DevicePast.{CountsFailure, OnlyReads, Rises};
ghost use Rattle.store_salvage.specs.Copied.{AreCopiedBut, AreUnread, IsCopiedOr, unread_sector};

use records::Error;
use sector_device::{Device, Failed, SECTOR_SIZE, zero_sector};
use std::alloc::Allocator;

// What stands in place of a sector that can't be read: bytes that are no part of a store.
fn unread_sector() -> [u8; SECTOR_SIZE]
    ensures { result ≡ unread_sector }
{
    [0xff; SECTOR_SIZE]
}

// The bytes of a sector, where there is one that can be read.
fn bytes_at<O: Device>(from: &mut O, n: u64) -> Option<[u8; SECTOR_SIZE]>
    ensures read { IfSome result (λ bytes. bytes ≡ sector (O.past_of from.old).disk.content n) }
    ensures none { IfNone result ((length (O.past_of from.old).disk.content ≤ n)
        ⊎ Rises (O.failures from.old) (O.failures from.new)) }
    ensures kept { OnlyReads (O.past_of from.old) (O.past_of from.new) }
    ensures later { O.failures from.old ≤ O.failures from.new }
{
    if n >= from.sectors() {
        return None;
    }
    let mut bytes = zero_sector();
    if from.read(n, &mut bytes).is_err() {
        return None;
    }
    Some(bytes)
}

// Copies a sector, and tells whether it could be read.
fn copy_sector<O: Device, N: Device>(from: &mut O, to: &mut N, n: u64) -> Result<bool, Failed>
    requires room { n < length (N.past_of to.old).disk.content }
    ensures copied { IfOk result (λ read. IsCopiedOr read (O.past_of from.old).disk.content
        (N.past_of to.new).disk.content n) }
    ensures unread { IfOk result (λ read. read ≡ false → (length (O.past_of from.old).disk.content ≤ n)
        ⊎ Rises (O.failures from.old) (O.failures from.new)) }
    ensures others { SameOutside (λ k. k ≡ n) (N.past_of to.old).disk.content (N.past_of to.new).disk.content }
    ensures kept { OnlyReads (O.past_of from.old) (O.past_of from.new) }
    ensures later { O.failures from.old ≤ O.failures from.new }
    ensures counts { CountsFailure (N.failures to.old) (N.failures to.new) result }
{
    match bytes_at(from, n) {
        Some(bytes) => {
            to.write(n, &bytes)?;
            Ok(true)
        }
        None => {
            to.write(n, &unread_sector())?;
            Ok(false)
        }
    }
}

/// Copies the first sectors of a disk to another one, and answers the numbers of those that can't be read, in whose
/// place the other one has bytes that say nothing (`copied`). The numbers rise, and each is of a sector that the disk
/// doesn't have, or in whose own turn a call of the disk failed (`unread`). It is only read (`kept`), and nothing of
/// the other one is changed behind them (`rest`).
///
/// `DeviceFailed` where the other disk failed (`refused`), or `NoMemory`.
pub fn copy_readable<O: Device, N: Device, A: Allocator>(
    alloc: A,
    from: &mut O,
    to: &mut N,
    sectors: u64,
) -> Result<Vec<u64, A>, Error>
    requires room { sectors ≤ length (N.past_of to.old).disk.content }
    ensures copied { IfOk result (λ unread. AreCopiedBut unread.items sectors (O.past_of from.old).disk.content
        (N.past_of to.new).disk.content) }
    ensures unread { IfOk result (λ unread. AreUnread unread.items sectors (O.past_of from.old).disk.content
        (N.past_of to.new).disk.content (O.failures from.old) (O.failures from.new)) }
    ensures rest { SameOutside (λ n. n < sectors) (N.past_of to.old).disk.content (N.past_of to.new).disk.content }
    ensures kept { OnlyReads (O.past_of from.old) (O.past_of from.new) }
    ensures refused { IfErr result (λ e. (e ≡ Error.NoMemory)
        ⊎ ((e ≡ Error.DeviceFailed) × Rises (N.failures to.old) (N.failures to.new))) }
    ensures quiet { OnOk result (N.failures to.new ≡ N.failures to.old) }
{
    let mut unread = Vec::new(alloc);
    for n in 0..sectors {
        let Ok(is_read) = copy_sector(from, to, n) else {
            return Err(Error::DeviceFailed);
        };
        if is_read {
            continue;
        }
        unread.push(n)?;
    }
    Ok(unread)
}
