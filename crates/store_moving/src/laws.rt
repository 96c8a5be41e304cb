//! A law of what a disk is told to hold.
ghost use Rattle.std.specs.Prelude.{◌≡◌, ◌⊎◌, ℕ};
ghost use Rattle.sector_device.specs.Disk.{CrashState};
ghost use Rattle.sector_device.specs.DevicePast.{Rises};
ghost use Rattle.record_values.specs.GeometryValue.{GeometryValue};
ghost use Rattle.record_values.specs.declared.version.Version.TheVariants.{One};
ghost use Rattle.store_moving.specs.Moved.{IsNotVersionOne, IsStoreOf};
ghost use Rattle.store_moving.specs.declared.old.NotVersionOne.{NotVersionOne};

use flip_image::one_store;

/// A law: `old_geometry` has one answer where no call of the disk fails: one geometry (`geometry`) or one refusal
/// (`refusal`), and not both (`either`).
pub fn one_old_store()
    ensures geometry { (image : CrashState) (g h : GeometryValue) → IsStoreOf One g image → IsStoreOf One h image
        → g ≡ h }
    ensures either { (image : CrashState) (before after : ℕ) (g : GeometryValue) (e : NotVersionOne)
        → IsStoreOf One g image → IsNotVersionOne image before after e → Rises before after }
    ensures refusal { (image : CrashState) (before after : ℕ) (d e : NotVersionOne)
        → IsNotVersionOne image before after d → IsNotVersionOne image before after e → (d ≡ e) ⊎ Rises before after }
{
    one_store();
}
