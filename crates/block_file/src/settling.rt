// Behind an opening all blocks are put in their places.
ghost use Rattle.std.specs.Prelude.{◌≡◌, ◌⊎◌, ◌-◌, ◌^◌, ◌≤◌, [], false, OnErr, OnOk};
ghost use Rattle.sector_device.specs.DevicePast.{Rises};
ghost use Rattle.block_device.specs.Blocks.{IsSynced};
ghost use Rattle.block_journal.specs.Journal.{NeedsNoArea};
ghost use Rattle.block_journal.specs.Value.{failures_of};
ghost use Rattle.block_table.specs.Checked.{settled_table};
ghost use Rattle.block_file.specs.Settling.{IsHandingOn, handed_on};

use block_device::Blocks;
use block_table::CheckedBlocks;
use sector_device::Failed;
use std::alloc::Allocator;

/// Puts all blocks of a file that was just opened in their places. The last batch is handed on first, as a batch of its
/// own in the other area, over the one before it: the journal's opening has made the last one safe in its own. No block
/// of it comes to its place before that. Behind an empty batch no area is needed.
pub(crate) fn settle<B: Blocks, A: Allocator + Copy>(
    checked: &mut CheckedBlocks<B, A>,
) -> Result<(), Failed>
    requires none { checked.old.journal.next ≡ [] }
    requires good { checked.old.journal.has_failed ≡ false }
    ensures settled { settled_table B.past_of checked.new ≡ settled_table B.past_of checked.old }
    ensures none { OnOk result (checked.new.journal.next ≡ []) }
    ensures sound { OnOk result (checked.new.journal.has_failed ≡ false) }
    ensures areas { OnOk result (NeedsNoArea checked.old.journal.shape
        (B.past_of checked.new.journal.below).file.content (settled_table B.past_of checked.old)) }
    ensures safe { OnOk result (IsSynced (B.past_of checked.new.journal.below).file) }
    ensures offered { OnOk result (checked.new.journal.offered
        ≡ handed_on checked.old.journal.offered checked.old.journal.last) }
    ensures counted { OnOk result (failures_of B.failures checked.new.journal
        ≡ failures_of B.failures checked.old.journal) }
    ensures fails { OnErr result ((2 ^ 64 - 2 ≤ checked.old.journal.last.number)
        ⊎ Rises (B.failures checked.old.journal.below) (B.failures checked.new.journal.below)) }
    ensures back { B.written_back checked.new.journal.below ≡ B.written_back checked.old.journal.below }
    ensures hands { IsHandingOn B.past_of checked.old.journal (B.past_of checked.new.journal.below) }
    ensures shape { checked.new.journal.shape ≡ checked.old.journal.shape }
    ensures blocks { checked.new.blocks ≡ checked.old.blocks }
{
    checked.stands();
    checked.gather_last();
    checked.commit()?;
    checked.stands();
    checked.close()
}
