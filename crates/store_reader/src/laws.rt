//! Laws of what an image gives.
ghost use Rattle.std.specs.Prelude.{◌≡◌, ◌≤◌, ℕ, List, length};
ghost use Rattle.std.specs.FinMap.{entries};
ghost use Rattle.sector_device.specs.Disk.{CrashState, IsDiskWhole};
ghost use Rattle.records.specs.RecordValue.{RecordValue};
ghost use Rattle.record_values.specs.GeometryValue.{GeometryValue};
ghost use Rattle.records.specs.declared.change.TheConstants.{CHANGES_MAX};
ghost use Rattle.record_values.specs.declared.error.Error.{Error};
ghost use Rattle.record_values.specs.declared.error.Error.TheVariants.{OldVersion};
ghost use Rattle.record_values.specs.declared.version.Version.{Version};
ghost use Rattle.record_values.specs.declared.version.Version.TheVariants.{One};
ghost use Rattle.record_values.specs.declared.number.TheConstants.{LAST_NUMBER};
ghost use Rattle.record_values.specs.declared.txn.TheConstants.{TXNS_MAX};
ghost use Rattle.model.specs.Cells.{Cells, list_of};
ghost use Rattle.model.specs.Following.{AreFollowing, ArePlaced};
ghost use Rattle.model.specs.Given.{Given, given_after, nothing, opening_cells};
ghost use Rattle.model.specs.Inside.{AreInside};
ghost use Rattle.gate_log.specs.Area.{Log};
ghost use Rattle.store_image_half.specs.Image.{no_cells};
ghost use Rattle.store_image_half.specs.Source.{FitsImage};
ghost use Rattle.flip_image.specs.declared.half.Half.{Half};
ghost use Rattle.flip_image.specs.declared.half.Half.TheVariants.{A};
ghost use Rattle.flip_image.specs.Store.{IsFormatted, AreGatesClosed, HoldsImage};
ghost use Rattle.store_reader.specs.Contents.{given_over, Gives, GivesIn, IsFound, IsUnreadable};
ghost use Rattle.store_reader.specs.Contents.{IsUnreadableIn, IsUntouched};

use flip_image::fresh_image;
use model::beginnings;
use store_image_half::fitting_cells;

/// A law: an image is of one geometry and gives one thing at most, of one log, and then no reader refuses it; and it is
/// refused in one way at most.
pub fn one_answer()
    ensures geometry { (image : CrashState) (g h : GeometryValue) (x y : Given) → Gives image g x → Gives image h y
        → g ≡ h }
    ensures given { (image : CrashState) (g h : GeometryValue) (x y : Given) → Gives image g x → Gives image h y
        → x ≡ y }
    ensures log { (image : CrashState) (g h : GeometryValue) (a b : Log) (x y : Given) → IsFound image g a x
        → IsFound image h b y → a ≡ b }
    ensures readable { (image : CrashState) (g : GeometryValue) (given : Given) (e : Error) → Gives image g given
        → ¬ IsUnreadable image e }
    ensures refusal { (image : CrashState) (d e : Error) → IsUnreadable image d → IsUnreadable image e → d ≡ e }
{}

/// A law: the same of an image read by version 1; and what gives something by version 1 a reader of version 2 refuses
/// as old.
pub fn one_old_answer()
    ensures geometry { (image : CrashState) (g h : GeometryValue) (x y : Given) → GivesIn One image g x
        → GivesIn One image h y → g ≡ h }
    ensures given { (image : CrashState) (g h : GeometryValue) (x y : Given) → GivesIn One image g x
        → GivesIn One image h y
        → x ≡ y }
    ensures readable { (image : CrashState) (g : GeometryValue) (given : Given) (e : Error) → GivesIn One image g given
        → ¬ IsUnreadableIn One image e }
    ensures refusal { (image : CrashState) (d e : Error) → IsUnreadableIn One image d → IsUnreadableIn One image e
        → d ≡ e }
    ensures older { (image : CrashState) (g : GeometryValue) (given : Given) → GivesIn One image g given
        → IsUnreadable image OldVersion }
{}

/// A law: what `format` leaves gives nothing, and is told to be untouched.
pub fn format_gives_nothing()
    ensures gives { (g : GeometryValue) (image : CrashState) → IsDiskWhole image → IsFormatted g image
        → AreGatesClosed g A image → Gives image g nothing }
    ensures untouched { (g : GeometryValue) (image : CrashState) → IsDiskWhole image → IsFormatted g image
        → AreGatesClosed g A image → IsUntouched image g }
{
    beginnings();
    fresh_image();
}

/// A law: over the image of no cells with base 0, which a fresh half holds, records leave what they leave of nothing.
pub fn over_no_cells()
    ensures given { (records : List RecordValue) → given_over 0 no_cells records ≡ given_after nothing records }
    ensures following { (pages : ℕ) (records : List RecordValue) → AreFollowing pages 0 (opening_cells nothing) records
        → AreFollowing pages 0 no_cells records }
{}

/// A law: what the image of a half holds lies in the store's pages, and its base is the number of a record or 0; there
/// are no more unfinished transactions than may be, with no more changes each than may be, which have their positions.
pub fn image_inside()
    ensures inside { (g : GeometryValue) (half : Half) (image : CrashState) (base : ℕ) (cells : Cells)
        → HoldsImage g half image base cells → AreInside g.pages cells }
    ensures numbered { (g : GeometryValue) (half : Half) (image : CrashState) (base : ℕ) (cells : Cells)
        → HoldsImage g half image base cells → base ≤ LAST_NUMBER }
    ensures few { (g : GeometryValue) (half : Half) (image : CrashState) (base : ℕ) (cells : Cells)
        → HoldsImage g half image base cells → length (entries cells.pending) ≤ TXNS_MAX }
    ensures short { (g : GeometryValue) (half : Half) (image : CrashState) (base : ℕ) (cells : Cells)
        → HoldsImage g half image base cells → (txn : ℕ) → length (list_of cells.pending txn) ≤ CHANGES_MAX }
    ensures placed { (g : GeometryValue) (half : Half) (image : CrashState) (base : ℕ) (cells : Cells)
        → HoldsImage g half image base cells → (txn : ℕ) → ArePlaced g.pages 0 (list_of cells.pending txn) }
{}

/// A law: an image of a store has room for what the store gives, and so has one of version 2 for what a store of
/// version 1 gives.
pub fn room_for_given()
    ensures { (v : Version) (image : CrashState) (g : GeometryValue) (given : Given) → GivesIn v image g given
        → FitsImage g (opening_cells given) }
{
    fitting_cells();
}
