// Sectors are read and written, in blocks of data.
ghost use Rattle.std.specs.Prelude.{◌≡◌, ◌≢◌, ◌⊎◌, ◌+◌, ◌-◌, ◌/◌, ◌^◌, ◌<◌, ◌≤◌, ℕ, Err, IfNone, IfOk, IfSome, OnErr};
ghost use Rattle.std.specs.Prelude.{OnOk, slice_set, true, false};
ghost use Rattle.sector_device.specs.Disk.{sector};
ghost use Rattle.sector_device.specs.DevicePast.{CountsFailure, Rises};
ghost use Rattle.block_journal.specs.Journal.{OnlyReads};
ghost use Rattle.block_journal.specs.Value.{failures_of, room_of};
ghost use Rattle.block_table.specs.Checked.{CountsRead, data_now, kept_table};
ghost use Rattle.block_file.specs.Damage.{FitsAsBefore, IsFirstDamaged, IsSectorFit};
ghost use Rattle.block_file.specs.Moves.{Moves};
ghost use Rattle.block_file.specs.Plans.{IsPlan};
ghost use Rattle.block_file.specs.Sectors.{sectors_of};

use crate::Plan;
use crate::eighths::{put_sector, sector_of};
use block_device::{BLOCK_SIZE, Blocks};
use block_table::{CheckedBlocks, ReadError};
use sector_device::{Failed, SECTOR_SIZE};
use std::alloc::Allocator;

/// Reads a sector.
pub(crate) fn read_sector<B: Blocks, A: Allocator + Copy>(
    checked: &mut CheckedBlocks<B, A>,
    plan: Plan,
    n: u64,
    buffer: &mut [u8; SECTOR_SIZE],
) -> Result<(), ReadError>
    requires plan { IsPlan plan }
    requires blocks { checked.old.blocks ≡ plan.blocks }
    requires inside { n < plan.sectors }
    ensures ok { OnOk result (buffer.new
        ≡ sector (sectors_of plan.lead plan.sectors (data_now B.past_of checked.old)) n) }
    ensures err { OnErr result (buffer.new ≡ buffer.old) }
    ensures fits { OnOk result (IsSectorFit plan (kept_table B.past_of checked.old) n) }
    ensures failed { OnErr result ((checked.old.journal.has_failed ≡ true)
        ⊎ Rises (B.failures checked.old.journal.below) (B.failures checked.new.journal.below)
        ⊎ ¬ IsSectorFit plan (kept_table B.past_of checked.old) n) }
    ensures sound { OnOk result (checked.old.journal.has_failed ≡ false) }
    ensures quiet { OnOk result (B.failures checked.new.journal.below ≡ B.failures checked.old.journal.below) }
    ensures alone { checked.old.journal.has_failed ≡ true → checked.new.journal.below ≡ checked.old.journal.below }
    ensures back { B.written_back checked.new.journal.below ≡ B.written_back checked.old.journal.below }
    ensures rest { checked.new ≡ record checked.old {
      journal = record checked.old.journal {
        below = checked.new.journal.below;
        refused = checked.new.journal.refused;
      };
    } }
    ensures reads { OnlyReads (B.past_of checked.old.journal.below) (B.past_of checked.new.journal.below) }
    ensures counts { CountsRead (failures_of B.failures checked.old.journal)
        (failures_of B.failures checked.new.journal) result }
{
    let at = n + plan.lead;
    let mut block = [0; BLOCK_SIZE];
    checked.read(at / 8, &mut block)?;
    *buffer = sector_of(&block, (at % 8) as usize);
    Ok(())
}

// Makes room for a block more: where there is none, what was put is committed.
fn make_room<B: Blocks, A: Allocator + Copy>(
    checked: &mut CheckedBlocks<B, A>,
) -> Result<(), ReadError>
    requires { 2 < checked.old.journal.shape.area }
    ensures room { OnOk result (1 < room_of checked.new.journal) }
    ensures gathers { 1 < room_of checked.old.journal
        → OnlyReads (B.past_of checked.old.journal.below) (B.past_of checked.new.journal.below) }
    ensures room_stays { 1 < room_of checked.old.journal
        → room_of checked.new.journal ≡ room_of checked.old.journal }
    ensures good { OnOk result (checked.new.journal.has_failed ≡ checked.old.journal.has_failed) }
    ensures quiet { OnOk result (B.failures checked.new.journal.below ≡ B.failures checked.old.journal.below) }
    ensures number { checked.new.journal.last.number ≤ checked.old.journal.last.number + 1 }
    ensures alone { checked.old.journal.has_failed ≡ true → checked.new.journal.below ≡ checked.old.journal.below }
    ensures back { B.written_back checked.new.journal.below ≡ B.written_back checked.old.journal.below }
    ensures fails { OnErr result ((checked.old.journal.has_failed ≡ true)
        ⊎ (checked.old.journal.last.number ≡ 2 ^ 64 - 1)
        ⊎ Rises (B.failures checked.old.journal.below) (B.failures checked.new.journal.below)) }
    ensures same { kept_table B.past_of checked.new ≡ kept_table B.past_of checked.old }
    ensures moves { Moves B.past_of checked.old checked.new }
    ensures counts { CountsRead (failures_of B.failures checked.old.journal)
        (failures_of B.failures checked.new.journal) result }
{
    checked.stands();
    if checked.room() > 0 {
        return Ok(());
    }
    match checked.commit() {
        Ok(()) => Ok(()),
        Err(_) => Err(ReadError::FileFailed),
    }
}

/// Writes a sector: its block is put for the next commit.
pub(crate) fn write_sector<B: Blocks, A: Allocator + Copy>(
    checked: &mut CheckedBlocks<B, A>,
    plan: Plan,
    n: u64,
    bytes: &[u8; SECTOR_SIZE],
) -> Result<(), ReadError>
    requires plan { IsPlan plan }
    requires shape { checked.old.journal.shape ≡ plan.shape }
    requires blocks { checked.old.blocks ≡ plan.blocks }
    requires inside { n < plan.sectors }
    ensures ok { OnOk result (sectors_of plan.lead plan.sectors (data_now B.past_of checked.new)
        ≡ slice_set (sectors_of plan.lead plan.sectors (data_now B.past_of checked.old)) n bytes.now) }
    ensures err { OnErr result (data_now B.past_of checked.new ≡ data_now B.past_of checked.old) }
    ensures failed { OnErr result ((checked.old.journal.has_failed ≡ true)
        ⊎ (checked.old.journal.last.number ≡ 2 ^ 64 - 1)
        ⊎ Rises (B.failures checked.old.journal.below) (B.failures checked.new.journal.below)
        ⊎ ¬ IsSectorFit plan (kept_table B.past_of checked.old) n) }
    ensures sound { OnOk result ((checked.old.journal.has_failed ≡ false)
        × (checked.new.journal.has_failed ≡ false)) }
    ensures quiet { OnOk result (B.failures checked.new.journal.below ≡ B.failures checked.old.journal.below) }
    ensures fits { FitsAsBefore plan (kept_table B.past_of checked.old) (kept_table B.past_of checked.new) }
    ensures broken { checked.new.journal.has_failed ≡ true → (checked.old.journal.has_failed ≡ true)
        ⊎ (checked.old.journal.last.number ≡ 2 ^ 64 - 1)
        ⊎ Rises (B.failures checked.old.journal.below) (B.failures checked.new.journal.below) }
    ensures number { checked.new.journal.last.number ≤ checked.old.journal.last.number + 1 }
    ensures alone { checked.old.journal.has_failed ≡ true → checked.new.journal.below ≡ checked.old.journal.below }
    ensures back { B.written_back checked.new.journal.below ≡ B.written_back checked.old.journal.below }
    ensures gathers { 1 < room_of checked.old.journal
        → OnlyReads (B.past_of checked.old.journal.below) (B.past_of checked.new.journal.below) }
    ensures room { 1 < room_of checked.old.journal
        → room_of checked.old.journal ≤ room_of checked.new.journal + 2 }
    ensures moves { Moves B.past_of checked.old checked.new }
    ensures counts { CountsRead (failures_of B.failures checked.old.journal)
        (failures_of B.failures checked.new.journal) result }
{
    checked.stands();
    make_room(checked)?;
    let at = n + plan.lead;
    let mut block = [0; BLOCK_SIZE];
    checked.read(at / 8, &mut block)?;
    put_sector(&mut block, (at % 8) as usize, bytes);
    checked.put(at / 8, &block);
    Ok(())
}

// The first sector, from a number on, that is in a block of data, which isn't before that of this number.
fn first_in(plan: Plan, from: u64, n: u64) -> Option<u64>
    requires small { plan.lead + plan.sectors < 2 ^ 64 }
    requires low { from < plan.sectors }
    requires behind { (from + plan.lead) / 8 ≤ n }
    ensures from { IfSome result (λ s. from ≤ s) }
    ensures low { IfSome result (λ s. s < plan.sectors) }
    ensures here { IfSome result (λ s. (s + plan.lead) / 8 ≡ n) }
    ensures before { IfSome result (λ s. (m : ℕ) → m < s → from ≤ m → (m + plan.lead) / 8 < n) }
    ensures none { IfNone result ((m : ℕ) → m < plan.sectors → (m + plan.lead) / 8 < n) }
{
    let first = n.saturating_mul(8).saturating_sub(plan.lead);
    if first >= plan.sectors {
        return None;
    }
    if first < from {
        return Some(from);
    }
    Some(first)
}

/// The first sector, from a number on, whose block doesn't fit its digest.
pub(crate) fn first_damaged<B: Blocks, A: Allocator + Copy>(
    checked: &mut CheckedBlocks<B, A>,
    plan: Plan,
    from: u64,
) -> Result<Option<u64>, Failed>
    requires plan { IsPlan plan }
    requires blocks { checked.old.blocks ≡ plan.blocks }
    ensures damaged { IfOk result (λ found. IfSome found (IsFirstDamaged plan
        (kept_table B.past_of checked.old) from)) }
    ensures fit { IfOk result (λ found. IfNone found ((n : ℕ) → from ≤ n → n < plan.sectors
        → IsSectorFit plan (kept_table B.past_of checked.old) n)) }
    ensures failed { OnErr result ((checked.old.journal.has_failed ≡ true)
        ⊎ Rises (B.failures checked.old.journal.below) (B.failures checked.new.journal.below)) }
    ensures unfailed { from < plan.sectors → OnOk result (checked.old.journal.has_failed ≡ false) }
    ensures quiet { OnOk result (B.failures checked.new.journal.below ≡ B.failures checked.old.journal.below) }
    ensures alone { checked.old.journal.has_failed ≡ true → checked.new.journal.below ≡ checked.old.journal.below }
    ensures back { B.written_back checked.new.journal.below ≡ B.written_back checked.old.journal.below }
    ensures rest { checked.new ≡ record checked.old {
      journal = record checked.old.journal {
        below = checked.new.journal.below;
        refused = checked.new.journal.refused;
      };
    } }
    ensures reads { OnlyReads (B.past_of checked.old.journal.below) (B.past_of checked.new.journal.below) }
    ensures counts { CountsFailure (failures_of B.failures checked.old.journal)
        (failures_of B.failures checked.new.journal) result }
{
    if from >= plan.sectors {
        return Ok(None);
    }
    match checked.check((from + plan.lead) / 8)? {
        Some(n) => Ok(first_in(plan, from, n)),
        None => Ok(None),
    }
}
