//! A law of what is written back.
ghost use Rattle.sector_device.specs.Disk.{CrashState, Disk, IsSynced, SameOutside};
ghost use Rattle.record_values.specs.GeometryValue.{GeometryValue};
ghost use Rattle.record_values.specs.declared.error.Error.{Error};
ghost use Rattle.model.specs.Given.{Given};
ghost use Rattle.flip_image.specs.declared.half.Half.{Half};
ghost use Rattle.flip_image.specs.Store.{IsStore};
ghost use Rattle.store_reader.specs.Contents.{Gives, IsUnreadable};
ghost use Rattle.store_opener.specs.Reopening.{IsSpare, IsWrittenBack, ReopeningLeaves};

/// A law: once an image of a device is written back it gives whatever it gave (`gives`). Only the half that wasn't
/// current and the flip sector have changed (`around`), and one that gives nothing is never written (`spared`). So
/// where no sector was unsynced, each crash leaves what gives the same (`synced`).
pub fn written_back()
    ensures gives { (before image : CrashState) → IsWrittenBack before image → (g : GeometryValue) (given : Given)
        → Gives before g given → Gives image g given }
    ensures around { (before image : CrashState) → IsWrittenBack before image → (g : GeometryValue) (half : Half)
        → IsStore g half before → SameOutside (IsSpare g half) before image }
    ensures spared { (before image : CrashState) (e : Error) → IsUnreadable before e → ¬ IsWrittenBack before image }
    ensures synced { (before : Disk) (image : CrashState) → IsSynced before → ReopeningLeaves before image
        → (g : GeometryValue) (given : Given) → Gives before.content g given → Gives image g given }
{}
