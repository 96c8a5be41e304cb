//! The first sectors of a disk are copied to another one.
ghost use Rattle.std.specs.Prelude.{◌≡◌, ◌<◌, ◌≤◌, length, IfErr, OnOk};
ghost use Rattle.sector_device.specs.Disk.{SameOutside, sector};
ghost use Rattle.sector_device.specs.DevicePast.{OnlyReads, Rises};
ghost use Rattle.program_files.specs.Copied.{AreCopied, HoldsFirst, IsCopyFailure, IsNotCopied};

use records::Error;
use sector_device::{Device, zero_sector};

/// Why sectors weren't copied, by the disk that was refused.
#[derive(Clone, Copy)]
pub enum NotCopied {
    /// The one that they are copied from.
    Old(Error),
    /// The other one.
    New(Error),
}

// Copies a sector.
fn copy_sector<O: Device, N: Device>(from: &mut O, to: &mut N, n: u64) -> Result<(), NotCopied>
    requires there { n < length (O.past_of from.old).disk.content }
    requires room { n < length (N.past_of to.old).disk.content }
    ensures copied { OnOk result (sector (N.past_of to.new).disk.content n
        ≡ sector (O.past_of from.old).disk.content n) }
    ensures others { SameOutside (λ k. k ≡ n) (N.past_of to.old).disk.content (N.past_of to.new).disk.content }
    ensures kept { OnlyReads (O.past_of from.old) (O.past_of from.new) }
    ensures failed { IfErr result (IsCopyFailure (Rises (O.failures from.old) (O.failures from.new))
        (Rises (N.failures to.old) (N.failures to.new))) }
    ensures quiet { OnOk result ((O.failures from.new ≡ O.failures from.old)
        × (N.failures to.new ≡ N.failures to.old)) }
{
    let mut bytes = zero_sector();
    if from.read(n, &mut bytes).is_err() {
        return Err(NotCopied::Old(Error::DeviceFailed));
    }
    if to.write(n, &bytes).is_err() {
        return Err(NotCopied::New(Error::DeviceFailed));
    }
    Ok(())
}

// Copies the first sectors.
fn copy_sectors<O: Device, N: Device>(
    from: &mut O,
    to: &mut N,
    sectors: u64,
) -> Result<(), NotCopied>
    requires there { sectors ≤ length (O.past_of from.old).disk.content }
    requires room { sectors ≤ length (N.past_of to.old).disk.content }
    ensures copied { OnOk result (AreCopied sectors (O.past_of from.old).disk.content
        (N.past_of to.new).disk.content) }
    ensures rest { SameOutside (λ n. n < sectors) (N.past_of to.old).disk.content (N.past_of to.new).disk.content }
    ensures kept { OnlyReads (O.past_of from.old) (O.past_of from.new) }
    ensures failed { IfErr result (IsCopyFailure (Rises (O.failures from.old) (O.failures from.new))
        (Rises (N.failures to.old) (N.failures to.new))) }
    ensures quiet { OnOk result ((O.failures from.new ≡ O.failures from.old)
        × (N.failures to.new ≡ N.failures to.old)) }
{
    for n in 0..sectors {
        copy_sector(from, to, n)?;
    }
    Ok(())
}

/// Copies the first sectors of one disk to another, which holds them safely then (`copied`). What is behind them stays
/// (`rest`), and the first disk is only read (`kept`).
///
/// `DeviceTooSmall` where a disk has fewer sectors, and then nothing was done (`room`, `refused`);
/// `DeviceFailed` where a disk failed (`refused`).
pub fn copy_disk<O: Device, N: Device>(
    from: &mut O,
    to: &mut N,
    sectors: u64,
) -> Result<(), NotCopied>
    ensures copied { OnOk result (HoldsFirst sectors (O.past_of from.old).disk.content (N.past_of to.new).disk) }
    ensures rest { SameOutside (λ n. n < sectors) (N.past_of to.old).disk.content (N.past_of to.new).disk.content }
    ensures kept { OnlyReads (O.past_of from.old) (O.past_of from.new) }
    ensures room { OnOk result ((sectors ≤ length (O.past_of from.old).disk.content)
        × (sectors ≤ length (N.past_of to.old).disk.content)) }
    ensures refused { IfErr result (IsNotCopied sectors (O.past_of from.old).disk.content
        (N.past_of to.old).disk.content (Rises (O.failures from.old) (O.failures from.new))
        (Rises (N.failures to.old) (N.failures to.new))) }
    ensures quiet { OnOk result ((O.failures from.new ≡ O.failures from.old)
        × (N.failures to.new ≡ N.failures to.old)) }
{
    if from.sectors() < sectors {
        return Err(NotCopied::Old(Error::DeviceTooSmall));
    }
    if to.sectors() < sectors {
        return Err(NotCopied::New(Error::DeviceTooSmall));
    }
    copy_sectors(from, to, sectors)?;
    if to.sync().is_err() {
        return Err(NotCopied::New(Error::DeviceFailed));
    }
    Ok(())
}
