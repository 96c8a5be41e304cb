// A device as its users see it: what its calls do, and what a crash may leave.
ghost use Rattle.std.specs.Prelude.{◌≡◌, ◌<◌, ℕ, ⊤, length, IfSome, OnOk, OnErr};
ghost use Rattle.sector_device.specs.Disk.{sector, after_write, after_sync, IsFailedWrite};
ghost use Rattle.sector_device.specs.DevicePast.{DevicePast, Elapses, CountsFailure};

use thiserror::Error;

/// The bytes of a sector.
pub const SECTOR_SIZE: usize = 512;

/// A call of a device failed.
#[derive(Clone, Copy, Debug, PartialEq, Eq, Error)]
#[error("the device failed")]
pub struct Failed;

/// A device of sectors, numbered from 0.
///
/// A sector that was written since the last sync that succeeded is unsynced. A crash leaves any 512
/// bytes in it, and the content of every other sector. It may come before, within or after any call.
pub trait Device {
    /// The disk as it is, and as it was at each moment until now.
    ghost past_of: { Self → DevicePast };

    /// A count of failures, which each call that fails raises. At 2^64 - 1 it may stay.
    ghost failures: { Self → ℕ };

    /// Which of the device's moments a number of its clock marks. A device without a clock needs not say.
    ghost marks: { ℕ → ℕ → Type 0 } = { λ mark moment. ⊤ };

    /// How many sectors there are.
    fn sectors(&self) -> u64
        ensures { result ≡ length (past_of self.now).disk.content };

    /// Reads a sector. A read that fails changes nothing.
    fn read(&mut self, n: u64, buffer: &mut [u8; SECTOR_SIZE]) -> Result<(), Failed>
        requires { n < length (past_of self.old).disk.content }
        ensures ok { OnOk result (buffer.new ≡ sector (past_of self.old).disk.content n) }
        ensures err { OnErr result (buffer.new ≡ buffer.old) }
        ensures disk { (past_of self.new).disk ≡ (past_of self.old).disk }
        ensures time { Elapses (past_of self.old) (past_of self.new) }
        ensures counts { CountsFailure (failures self.old) (failures self.new) result };

    /// Writes a sector, which is then unsynced. A write that fails leaves any bytes in it, unsynced too.
    fn write(&mut self, n: u64, bytes: &[u8; SECTOR_SIZE]) -> Result<(), Failed>
        requires { n < length (past_of self.old).disk.content }
        ensures ok { OnOk result ((past_of self.new).disk ≡ after_write (past_of self.old).disk n bytes.now) }
        ensures err { OnErr result (IsFailedWrite (past_of self.old).disk n (past_of self.new).disk) }
        ensures time { Elapses (past_of self.old) (past_of self.new) }
        ensures counts { CountsFailure (failures self.old) (failures self.new) result };

    /// Syncs all sectors. A sync that fails changes nothing.
    fn sync(&mut self) -> Result<(), Failed>
        ensures ok { OnOk result ((past_of self.new).disk ≡ after_sync (past_of self.old).disk) }
        ensures err { OnErr result ((past_of self.new).disk ≡ (past_of self.old).disk) }
        ensures time { Elapses (past_of self.old) (past_of self.new) }
        ensures counts { CountsFailure (failures self.old) (failures self.new) result };

    /// A number that marks the moment that it is, where the device has a clock. (That it has one, no clause says.)
    fn clock(&self) -> Option<u64>
        ensures { IfSome result (λ mark. marks mark (past_of self.now).moment) }
    {
        None
    }
}
