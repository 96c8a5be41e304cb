// A device that fails once.
ghost use Rattle.std.specs.Prelude.{◌≡◌, ◌+◌, ◌-◌, ◌^◌, ◌⊎◌, ◌↔◌, ◌<◌, length, if◌then◌else◌, IsTrue, IsErr, OnErr};
ghost use Rattle.std.specs.Prelude.{OnOk};
ghost use Rattle.sector_device.specs.Fault.{fault_count};
ghost use Rattle.sector_device.specs.FaultDisk.{IsFailureDue, CountsCall, CountsNone, device_of, which_of, fails_at_of};
ghost use Rattle.sector_device.specs.FaultDisk.{made_of};
ghost use Rattle.sector_device.specs.Disk.{sector, after_write, after_sync, IsFailedWrite};
ghost use Rattle.sector_device.specs.DevicePast.{Elapses, Rises, CountsFailure};

use crate::{Device, Failed, SECTOR_SIZE};

/// The calls that a `FaultDisk` counts.
#[derive(Clone, Copy, Debug, PartialEq, Eq)]
pub enum Which {
    /// Reads, writes and syncs.
    All,
    WritesAndSyncs,
}

/// A device whose k-th counted call fails. Each other call is passed on.
#[derive(Drop)]
pub struct FaultDisk<D> {
    device: D,
    which: Which,
    fails_at: u64,
    made: u64,
}

impl<D: Device> FaultDisk<D> {
    /// Fails at the `fails_at`-th counted call, or never at 0.
    pub fn new(device: D, which: Which, fails_at: u64) -> Self
        ensures device { device_of result ≡ device }
        ensures which { which_of result ≡ which }
        ensures fails_at { fails_at_of result ≡ fails_at }
        ensures made { made_of result ≡ 0 }
    {
        FaultDisk {
            device,
            which,
            fails_at,
            made: 0,
        }
    }

    /// How many calls were counted. It stays at 2^64 - 1.
    pub fn made(&self) -> u64
        ensures { result ≡ made_of self.now }
    {
        self.made
    }

    /// The device below it.
    pub fn into_inner(self) -> D
        ensures { result ≡ device_of self }
    {
        self.device
    }

    // Counts a call, and answers whether it is to fail.
    fn count(&mut self) -> bool
        ensures due { IsTrue result ↔ IsFailureDue self.old }
        ensures call { CountsCall self.old self.new }
        ensures device { device_of self.new ≡ device_of self.old }
        ensures fails { fault_count self.new.fails_at self.new.made
            ≡ fault_count self.old.fails_at self.old.made + (if result then 1 else 0) }
    {
        if self.made == u64::MAX {
            return false;
        }
        self.made += 1;
        self.made == self.fails_at
    }
}

impl<D: Device> Device for FaultDisk<D> {
    ghost past_of = { λ f. D.past_of f.device };

    ghost failures = { λ f. D.failures f.device + fault_count f.fails_at f.made };

    ghost marks = { D.marks };

    fn sectors(&self) -> u64 {
        self.device.sectors()
    }

    fn read(&mut self, n: u64, buffer: &mut [u8; SECTOR_SIZE]) -> Result<(), Failed>
        requires { n < length (D.past_of (device_of self.old)).disk.content }
        ensures ok { OnOk result (buffer.new ≡ sector (D.past_of (device_of self.old)).disk.content n) }
        ensures err { OnErr result (buffer.new ≡ buffer.old) }
        ensures disk { (D.past_of (device_of self.new)).disk
            ≡ (D.past_of (device_of self.old)).disk }
        ensures time { Elapses (D.past_of (device_of self.old)) (D.past_of (device_of self.new)) }
        ensures counts { CountsFailure
            (D.failures (device_of self.old) + fault_count (fails_at_of self.old) (made_of self.old))
            (D.failures (device_of self.new) + fault_count (fails_at_of self.new) (made_of self.new)) result }

        // It fails at the call that is due, and where the device below fails.
        ensures call { which_of self.old ≡ Which.All → CountsCall self.old self.new }
        ensures no_call { which_of self.old ≡ Which.WritesAndSyncs → CountsNone self.old self.new }
        ensures due { which_of self.old ≡ Which.All → IsFailureDue self.old
            → IsErr result × (device_of self.new ≡ device_of self.old) }
        ensures otherwise { OnErr result (((which_of self.old ≡ Which.All) × IsFailureDue self.old)
            ⊎ Rises (D.failures (device_of self.old)) (D.failures (device_of self.new))) }
    {
        if self.which == Which::All && self.count() {
            return Err(Failed);
        }
        self.device.read(n, buffer)
    }

    /// Where it fails by itself, the new bytes are in the sector, unsynced.
    fn write(&mut self, n: u64, bytes: &[u8; SECTOR_SIZE]) -> Result<(), Failed>
        requires { n < length (D.past_of (device_of self.old)).disk.content }
        ensures ok { OnOk result ((D.past_of (device_of self.new)).disk
            ≡ after_write (D.past_of (device_of self.old)).disk n bytes.now) }
        ensures err { OnErr result (IsFailedWrite (D.past_of (device_of self.old)).disk n
            (D.past_of (device_of self.new)).disk) }
        ensures time { Elapses (D.past_of (device_of self.old)) (D.past_of (device_of self.new)) }
        ensures counts { CountsFailure
            (D.failures (device_of self.old) + fault_count (fails_at_of self.old) (made_of self.old))
            (D.failures (device_of self.new) + fault_count (fails_at_of self.new) (made_of self.new)) result }

        // It fails at the call that is due, and where the device below fails.
        ensures call { CountsCall self.old self.new }
        ensures due { IsFailureDue self.old → IsErr result }
        ensures otherwise { OnErr result (IsFailureDue self.old
            ⊎ Rises (D.failures (device_of self.old)) (D.failures (device_of self.new))) }
        ensures new_bytes { OnErr result (((D.past_of (device_of self.new)).disk
            ≡ after_write (D.past_of (device_of self.old)).disk n bytes.now)
            ⊎ Rises (D.failures (device_of self.old)) (D.failures (device_of self.new))) }
    {
        let fails = self.count();
        self.device.write(n, bytes)?;
        if fails { Err(Failed) } else { Ok(()) }
    }

    fn sync(&mut self) -> Result<(), Failed>
        ensures ok { OnOk result ((D.past_of (device_of self.new)).disk
            ≡ after_sync (D.past_of (device_of self.old)).disk) }
        ensures err { OnErr result ((D.past_of (device_of self.new)).disk
            ≡ (D.past_of (device_of self.old)).disk) }
        ensures time { Elapses (D.past_of (device_of self.old)) (D.past_of (device_of self.new)) }
        ensures counts { CountsFailure
            (D.failures (device_of self.old) + fault_count (fails_at_of self.old) (made_of self.old))
            (D.failures (device_of self.new) + fault_count (fails_at_of self.new) (made_of self.new)) result }

        // It fails at the call that is due, and where the device below fails.
        ensures call { CountsCall self.old self.new }
        ensures due { IsFailureDue self.old → IsErr result × (device_of self.new ≡ device_of self.old) }
        ensures otherwise { OnErr result (IsFailureDue self.old
            ⊎ Rises (D.failures (device_of self.old)) (D.failures (device_of self.new))) }
    {
        if self.count() {
            return Err(Failed);
        }
        self.device.sync()
    }

    fn clock(&self) -> Option<u64> {
        self.device.clock()
    }
}
