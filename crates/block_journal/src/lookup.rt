// A block is read: as it is gathered, or as the last batch has it, or from its place.
ghost use Rattle.std.specs.Prelude.{◌≡◌, ◌+◌, ◌^◌, ◌<◌, length, OnOk, OnErr};
ghost use Rattle.sector_device.specs.DevicePast.{CountsFailure};
ghost use Rattle.block_device.specs.Blocks.{block};
ghost use Rattle.block_batch.specs.Batch.{replayed};
ghost use Rattle.block_journal.specs.Layout.{IsInside, kept_of, kept_start};
ghost use Rattle.block_journal.specs.Journal.{OnlyReads};
ghost use Rattle.block_journal.specs.Gathered.{entries_of, IsBuffer};

use crate::Shape;
use crate::gathered::Gathered;
use block_device::{BLOCK_SIZE, Blocks};
use sector_device::Failed;
use std::alloc::Allocator;

// Reads a kept block from its place.
fn read_kept<B: Blocks>(
    below: &mut B,
    shape: Shape,
    place: u64,
    bytes: &mut [u8; BLOCK_SIZE],
) -> Result<(), Failed>
    requires inside { IsInside shape (B.past_of below.old).file.content }
    requires small { kept_start shape + shape.kept < 2 ^ 64 }
    requires kept { place < shape.kept }
    ensures ok { OnOk result (bytes.new ≡ block (kept_of shape (B.past_of below.old).file.content) place) }
    ensures err { OnErr result (bytes.new ≡ bytes.old) }
    ensures reads { OnlyReads (B.past_of below.old) (B.past_of below.new) }
    ensures back { B.written_back below.new ≡ B.written_back below.old }
    ensures counts { CountsFailure (B.failures below.old) (B.failures below.new) result }
{
    let kept = shape.first + 2 * shape.area;
    let mut run = [[0; BLOCK_SIZE]];
    below.read(kept + place, &mut run)?;
    *bytes = run[0];
    Ok(())
}

// Reads a kept block as the last batch left it.
fn read_settled<B: Blocks, A: Allocator + Copy>(
    below: &mut B,
    shape: Shape,
    last: &Gathered<A>,
    place: u64,
    bytes: &mut [u8; BLOCK_SIZE],
) -> Result<(), Failed>
    requires inside { IsInside shape (B.past_of below.old).file.content }
    requires small { kept_start shape + shape.kept < 2 ^ 64 }
    requires kept { place < shape.kept }
    requires last { IsBuffer last.now }
    ensures ok { OnOk result (bytes.new ≡ block (replayed (entries_of last.now)
        (kept_of shape (B.past_of below.old).file.content)) place) }
    ensures err { OnErr result (bytes.new ≡ bytes.old) }
    ensures reads { OnlyReads (B.past_of below.old) (B.past_of below.new) }
    ensures back { B.written_back below.new ≡ B.written_back below.old }
    ensures counts { CountsFailure (B.failures below.old) (B.failures below.new) result }
{
    match last.find(place) {
        Some(i) => {
            *bytes = last.block(i);
            Ok(())
        }
        None => read_kept(below, shape, place, bytes),
    }
}

/// Reads a kept block as it is gathered for the next batch, or else as the last one left it.
pub(crate) fn read_block<B: Blocks, A: Allocator + Copy>(
    below: &mut B,
    shape: Shape,
    last: &Gathered<A>,
    next: &Gathered<A>,
    place: u64,
    bytes: &mut [u8; BLOCK_SIZE],
) -> Result<(), Failed>
    requires inside { IsInside shape (B.past_of below.old).file.content }
    requires small { kept_start shape + shape.kept < 2 ^ 64 }
    requires kept { place < shape.kept }
    requires last { IsBuffer last.now }
    requires next { IsBuffer next.now }
    ensures ok { OnOk result (bytes.new ≡ block (replayed (entries_of next.now) (replayed (entries_of last.now)
        (kept_of shape (B.past_of below.old).file.content))) place) }
    ensures err { OnErr result (bytes.new ≡ bytes.old) }
    ensures reads { OnlyReads (B.past_of below.old) (B.past_of below.new) }
    ensures back { B.written_back below.new ≡ B.written_back below.old }
    ensures counts { CountsFailure (B.failures below.old) (B.failures below.new) result }
{
    match next.find(place) {
        Some(i) => {
            *bytes = next.block(i);
            Ok(())
        }
        None => read_settled(below, shape, last, place, bytes),
    }
}
