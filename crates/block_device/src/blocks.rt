// A file of blocks as its users see it: what its calls do, and what a crash may leave.
ghost use Rattle.std.specs.Prelude.{◌≡◌, ◌+◌, ◌<◌, ◌≤◌, ◌^◌, ℕ, List, length, OnOk, OnErr};
ghost use Rattle.sector_device.specs.DevicePast.{CountsFailure};
ghost use Rattle.block_device.specs.Blocks.{run_of, after_write, after_sync, IsFailedWrite};
ghost use Rattle.block_device.specs.BlocksPast.{BlocksPast, Elapses, WrittenBack, and_back};

use sector_device::Failed;

/// The bytes of a block.
pub const BLOCK_SIZE: usize = 4096;

/// A file of blocks, numbered from 0.
///
/// A block that was written since the last sync that succeeded is loose. A crash leaves any 4,096 bytes in it, and the
/// content of every other block. It may come before, within or after any call. After a sync that failed, what was loose
/// stays so.
pub trait Blocks {
    /// The file as it is, and as it was at each moment until now.
    ghost past_of: { Self → BlocksPast };

    /// A count of failures, which each call that fails raises. At 2^64 - 1 it may stay.
    ghost failures: { Self → ℕ };

    /// Which runs of blocks were written back (`keep`), in order, and at which moment of the file each.
    ghost written_back: { Self → List WrittenBack };

    /// How many blocks there are.
    fn blocks(&self) -> u64
        ensures { result ≡ length (past_of self.now).file.content };

    /// Reads as many blocks as there is room for, from the first one's number on. Where it fails, the room holds any
    /// bytes.
    fn read(&mut self, first: u64, run: &mut [[u8; BLOCK_SIZE]]) -> Result<(), Failed>
        requires { first + length run.old ≤ length (past_of self.old).file.content }
        ensures ok { OnOk result (run.new ≡ run_of (past_of self.old).file.content first (length run.old)) }
        ensures size { length run.new ≡ length run.old }
        ensures file { (past_of self.new).file ≡ (past_of self.old).file }
        ensures time { Elapses (past_of self.old) (past_of self.new) }
        ensures back { written_back self.new ≡ written_back self.old }
        ensures counts { CountsFailure (failures self.old) (failures self.new) result };

    /// Writes these blocks, from the first one's number on, which are then loose. A write that fails leaves any bytes
    /// in them, loose too.
    fn write(&mut self, first: u64, run: &[[u8; BLOCK_SIZE]]) -> Result<(), Failed>
        requires { first + length run.now ≤ length (past_of self.old).file.content }
        ensures ok { OnOk result ((past_of self.new).file ≡ after_write (past_of self.old).file first run.now) }
        ensures err { OnErr result (IsFailedWrite (past_of self.old).file first (length run.now)
            (past_of self.new).file) }
        ensures time { Elapses (past_of self.old) (past_of self.new) }
        ensures back { written_back self.new ≡ written_back self.old }
        ensures counts { CountsFailure (failures self.old) (failures self.new) result };

    /// Syncs all blocks. A sync that fails changes nothing.
    fn sync(&mut self) -> Result<(), Failed>
        ensures ok { OnOk result ((past_of self.new).file ≡ after_sync (past_of self.old).file) }
        ensures err { OnErr result ((past_of self.new).file ≡ (past_of self.old).file) }
        ensures time { Elapses (past_of self.old) (past_of self.new) }
        ensures back { written_back self.new ≡ written_back self.old }
        ensures counts { CountsFailure (failures self.old) (failures self.new) result };

    /// Writes so many blocks again as they are, from the first one's number on, and syncs them. So what a sync of an
    /// earlier process left in the memory of the system alone is safe then. Only where it succeeds, it is noted
    /// (`back`, `back_err`). Nothing else changes, whatever it answers: a crash within it leaves what one before it
    /// does. (So to write a block back is to harm no other one, and itself only where the file below has other bytes.)
    fn keep(&mut self, first: u64, count: u64) -> Result<(), Failed>
        requires { first + count ≤ length (past_of self.old).file.content }
        ensures past { past_of self.new ≡ past_of self.old }
        ensures back { OnOk result (written_back self.new
            ≡ and_back (written_back self.old) first count (past_of self.old).moment) }
        ensures back_err { OnErr result (written_back self.new ≡ written_back self.old) }
        ensures counts { CountsFailure (failures self.old) (failures self.new) result };
}

/// A law: a file has fewer than 2^64 blocks.
pub fn few_blocks<B: Blocks>(below: &B)
    ensures { length (B.past_of below.now).file.content < 2 ^ 64 }
{
    // the number is looked at, so that its limit is at hand
    let _ = below.blocks();
}
