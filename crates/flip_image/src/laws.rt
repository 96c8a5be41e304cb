//! Laws of what a device holds.
ghost use Rattle.std.specs.Prelude.{◌≡◌, ◌≤◌, ℕ, length};
ghost use Rattle.sector_device.specs.Disk.{CrashState, sector, IsDiskWhole, SameOutside};
ghost use Rattle.record_values.specs.declared.error.Error.{Error};
ghost use Rattle.record_values.specs.declared.error.Error.TheVariants as errors;
ghost use Rattle.record_values.specs.declared.version.Version.{Version};
ghost use Rattle.record_values.specs.declared.version.Version.TheVariants.{One};
ghost use Rattle.record_values.specs.declared.geometry.TheConstants.{FRONT_SECTORS};
ghost use Rattle.record_values.specs.GeometryValue.{GeometryValue, sectors_of};
ghost use Rattle.store_image_half.specs.Image.{no_cells};
ghost use Rattle.flip_image.specs.declared.half.Half.{Half};
ghost use Rattle.flip_image.specs.declared.half.Half.TheVariants.{A};
ghost use Rattle.flip_image.specs.Layout.{other, InHalf, InHalfImage, InLog};
ghost use Rattle.flip_image.specs.Store.{IsStore, IsStoreIn, IsFresh, HoldsImage, IsFormatted, IsRefused, IsRefusedIn};

/// A law: an image is of one store of a version at most, with one half that is current, and then no reader of that
/// version refuses it; and it is refused in one way at most. A store of version 1 is refused by a reader of version 2
/// as one.
pub fn one_store()
    ensures geometry { (v : Version) (g h : GeometryValue) (a b : Half) (image : CrashState) → IsStoreIn v g a image
        → IsStoreIn v h b image → g ≡ h }
    ensures current { (v : Version) (g h : GeometryValue) (a b : Half) (image : CrashState) → IsStoreIn v g a image
        → IsStoreIn v h b image → a ≡ b }
    ensures accepted { (v : Version) (g : GeometryValue) (half : Half) (image : CrashState) (e : Error)
        → IsStoreIn v g half image → ¬ IsRefusedIn v image e }
    ensures refusal { (v : Version) (image : CrashState) (d e : Error) → IsRefusedIn v image d → IsRefusedIn v image e
        → d ≡ e }
    ensures older { (g : GeometryValue) (half : Half) (image : CrashState) → IsStoreIn One g half image
        → IsRefused image errors.OldVersion }
{}

/// A law: which store an image is of, with this half as its current one, depends on no sector of that half's log
/// (`store`); nor does it that a half is fresh. So what `format` leaves stays while only half A's log is written.
pub fn store_beside_log()
    ensures store { (g : GeometryValue) (half : Half) (image other : CrashState)
        → SameOutside (InLog g half) image other
        → IsStore g half image → IsStore g half other }
    ensures fresh { (g : GeometryValue) (half : Half) (image other : CrashState)
        → SameOutside (InLog g half) image other
        → IsFresh g half image → IsFresh g half other }
    ensures formatted { (g : GeometryValue) (image other : CrashState) → SameOutside (InLog g A) image other
        → IsFormatted g image → IsFormatted g other }
{}

/// A law: no sector is of both halves, nor of a half and in front of them; and a half's image and its log lie in it and
/// apart.
pub fn halves_apart()
    ensures other { (g : GeometryValue) (half : Half) (n : ℕ) → InHalf g half n → ¬ InHalf g (other half) n }
    ensures front { (g : GeometryValue) (half : Half) (n : ℕ) → InHalf g half n → FRONT_SECTORS ≤ n }
    ensures image { (g : GeometryValue) (half : Half) (n : ℕ) → InHalfImage g half n → InHalf g half n }
    ensures log { (g : GeometryValue) (half : Half) (n : ℕ) → InLog g half n → InHalf g half n }
    ensures parts { (g : GeometryValue) (half : Half) (n : ℕ) → InHalfImage g half n → ¬ InLog g half n }
{}

/// A law: a half is fresh just where it holds the image of nothing, with base 0.
pub fn fresh_image()
    ensures image { (g : GeometryValue) (half : Half) (image : CrashState) → IsDiskWhole image
        → sectors_of g ≤ length image
        → IsFresh g half image → HoldsImage g half image 0 no_cells }
    ensures fresh { (g : GeometryValue) (half : Half) (image : CrashState) → IsDiskWhole image
        → sectors_of g ≤ length image
        → HoldsImage g half image 0 no_cells → IsFresh g half image }
{}
