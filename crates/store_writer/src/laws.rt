//! Laws of what a writer is opened over, of what is handed to it, and of what a crash leaves.
ghost use Rattle.std.specs.Prelude.{◌≡◌, ◌⊎◌, ◌≤◌, ◌+◌, ℕ, List, [], length, Option};
ghost use Rattle.sector_device.specs.Disk.{IsSynced};
ghost use Rattle.sector_device.specs.DevicePast.{DevicePast};
ghost use Rattle.records.specs.RecordValue.{RecordValue};
ghost use Rattle.record_values.specs.declared.number.TheConstants.{LAST_NUMBER};
ghost use Rattle.model.specs.Cells.{Cells};
ghost use Rattle.model.specs.Following.{AreFollowing};
ghost use Rattle.model.specs.Given.{Given, recovered};
ghost use Rattle.gate_log.specs.Area.{Log, Stands};
ghost use Rattle.flip_image.specs.Layout.{HalvesValue};
ghost use Rattle.flip_image.specs.Store.{IsStore, HoldsImage};
ghost use Rattle.store_image_model.specs.Run.{Run, IsRun, end_of, cells_at};
ghost use Rattle.store_reader.specs.Contents.{IsFound, log_area};
ghost use Rattle.store_writer.specs.Writer.{IsOpenedAt, longer, AreNext};

use store_reader::image_inside;

/// A law: a writer can be opened over what a reader found on a device that is synced. What was given is recovered of
/// the cells that the run begins with.
pub fn opened_by_reader()
    ensures { (now : DevicePast) (halves : HalvesValue) (log : Log) (given : Given)
        → IsStore halves.geometry halves.current now.disk.content → IsFound now.disk.content halves.geometry log given
        → IsSynced now.disk → given.last ≤ LAST_NUMBER
        → (cells : Cells) × (given ≡ recovered cells given.last) × IsOpenedAt now halves log given.last cells }
{
    image_inside();
}

/// A law: records that can follow the ones of a run make it longer, and are the next ones to be handed in where all
/// before were.
pub fn longer_run()
    ensures run { (run : Run) (more : List RecordValue) → IsRun run
        → AreFollowing run.geometry.pages (end_of run) (cells_at run (end_of run)) more → IsRun (longer run more) }
    ensures next { (run : Run) (more : List RecordValue) → end_of run + length more ≤ LAST_NUMBER
        → AreNext (longer run more) (end_of run) more }
{}
