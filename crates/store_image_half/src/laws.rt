//! Laws of images.
ghost use Rattle.std.specs.Prelude.{◌≡◌, ℕ, ◌+◌, ◌%◌, ◌<◌, ◌≤◌, ◌++◌, List, length, map, slice_get, Some};
ghost use Rattle.std.specs.FinMap as finite;
ghost use Rattle.sector_device.specs.Disk.{CrashState, sector, SameOutside};
ghost use Rattle.record_values.specs.Values.{Place};
ghost use Rattle.records.specs.ChangeValue.{ChangeValue};
ghost use Rattle.record_values.specs.GeometryValue.{GeometryValue};
ghost use Rattle.record_values.specs.declared.version.Version.{Version};
ghost use Rattle.record_values.specs.Maps.{set_at};
ghost use Rattle.record_values.specs.declared.rid.TheConstants.{SLOTS_PER_PAGE};
ghost use Rattle.records.specs.declared.change.TheConstants.{CHANGES_MAX};
ghost use Rattle.record_values.specs.declared.geometry.TheConstants.{ENTRIES_PER_SECTOR};
ghost use Rattle.record_values.specs.declared.row.Row.{Row};
ghost use Rattle.record_values.specs.declared.pair.Pair.{Pair};
ghost use Rattle.record_values.specs.declared.pair.Mark.{Mark};
ghost use Rattle.model.specs.declared.life.Life.{Life};
ghost use Rattle.model.specs.Table.{Table};
ghost use Rattle.record_values.specs.Entries.{Index};
ghost use Rattle.model.specs.Cells.{Cells, with_list};
ghost use Rattle.model.specs.Following.{ArePlaced, IsAdmitted};
ghost use Rattle.model.specs.Inside.{IsLifeWithin};
ghost use Rattle.store_image_half.specs.Layout.{heads_at, InImage, InImageIn, InPage, InEntries};
ghost use Rattle.store_image_half.specs.Image.{IsHeader, AreHeads, HoldsList, IsEntry, IsImage, IsImageIn, entry_bytes};
ghost use Rattle.store_image_half.specs.Image.{header_of, head_of, no_cells};
ghost use Rattle.store_image_half.specs.Part.{IsImagePart, HasPage, IsWithPage};
ghost use Rattle.store_image_half.specs.Source.{FitsImage};
ghost use Rattle.store_image_half.specs.Damage.{IsDamagedAtIn, IsFirstDamagedIn};

/// A law: one image of a version lies in some sectors at most, with one base.
pub fn one_image()
    ensures base { (v : Version) (g : GeometryValue) (first : ℕ) (image : CrashState) (m n : ℕ) (x y : Cells)
        → IsImageIn v g first image m x → IsImageIn v g first image n y → m ≡ n }
    ensures cells { (v : Version) (g : GeometryValue) (first : ℕ) (image : CrashState) (m n : ℕ) (x y : Cells)
        → IsImageIn v g first image m x → IsImageIn v g first image n y → x ≡ y }
{}

/// A law: no sector of an image is damaged, and at most one sector is the first that is damaged.
pub fn one_damage()
    ensures none { (v : Version) (g : GeometryValue) (first : ℕ) (image : CrashState) (base : ℕ) (cells : Cells) (n : ℕ)
        → IsImageIn v g first image base cells → ¬ IsDamagedAtIn v g first image n }
    ensures one { (v : Version) (g : GeometryValue) (first : ℕ) (image : CrashState) (m n : ℕ)
        → IsFirstDamagedIn v g first image m → IsFirstDamagedIn v g first image n → m ≡ n }
{}

/// A law: an image is told by its sectors, in each version.
pub fn told_by_its_sectors()
    ensures { (v : Version) (g : GeometryValue) (first : ℕ) (image other : CrashState)
        → ((n : ℕ) → InImageIn v g first n → sector other n ≡ sector image n)
        → (base : ℕ) (cells : Cells) → IsImageIn v g first image base cells → IsImageIn v g first other base cells }
{}

/// A law: there is room for no cells; and then for a life, a row, an entry and a list of the store's pages, as long as
/// there is a place left for an entry and for a transaction.
pub fn fitting_cells()
    ensures none { (g : GeometryValue) → FitsImage g no_cells }
    ensures life { (g : GeometryValue) (cells : Cells) (life : Life) → FitsImage g cells → IsLifeWithin g.pages life
        → FitsImage g (record cells { life = life }) }
    ensures row { (g : GeometryValue) (cells : Cells) (q : Place) (r : Row) → FitsImage g cells → q.page < g.pages
        → q.slot < SLOTS_PER_PAGE → FitsImage g (record cells { rows = set_at cells.rows q (Some r) }) }
    ensures entry { (g : GeometryValue) (cells : Cells) (p : Pair) (m : Mark) → FitsImage g cells → p.rid.page < g.pages
        → length (finite.entries cells.entries) < g.entries
        → FitsImage g (record cells { entries = set_at cells.entries p (Some m) }) }
    ensures list { (g : GeometryValue) (cells : Cells) (txn : ℕ) (changes : List ChangeValue) → FitsImage g cells
        → IsAdmitted cells.pending txn → ArePlaced g.pages 0 changes → length changes ≤ CHANGES_MAX
        → FitsImage g (record cells { pending = with_list cells.pending txn (Some changes) }) }
{}

/// A law: an image is written part by part. It begins with the heads and lists, without rows and entries; then come the
/// pages in order, and entries behind those that fill their sectors, by `write_page` and `write_entries`; and with all
/// pages and the header it is the image. While it is written it is told by its sectors.
pub fn image_in_parts()
    ensures began { (g : GeometryValue) (first : ℕ) (image : CrashState) (cells : Cells)
        → AreHeads (sector image (heads_at first)) (map head_of (finite.entries cells.pending))
        → ((h : ℕ) (list : ℕ × List ChangeValue) → slice_get (finite.entries cells.pending) h ≡ Some list
        → HoldsList g first image h list.1)
        → cells.rows ≡ finite.empty → cells.entries ≡ finite.empty → IsImagePart g first image 0 cells }
    ensures page { (g : GeometryValue) (first : ℕ) (old new : CrashState) (page : ℕ) (cells : Cells) (rows : Table)
        → page < g.pages → IsImagePart g first old page cells → SameOutside (InPage first page) old new
        → HasPage first new page rows → IsWithPage page cells.rows rows
        → IsImagePart g first new (page + 1) (record cells { rows = rows }) }
    ensures entries { (g : GeometryValue) (first : ℕ) (old new : CrashState) (pages : ℕ) (cells : Cells) (index : Index)
        (more : List (Pair × Mark)) → IsImagePart g first old pages cells
        → length (finite.entries cells.entries) % ENTRIES_PER_SECTOR ≡ 0
        → finite.entries index ≡ finite.entries cells.entries ++ more
        → length (finite.entries cells.entries) + length more ≤ g.entries
        → SameOutside (InEntries g first (length (finite.entries cells.entries)) (length more)) old new
        → ((i : ℕ) (e : Pair × Mark) → slice_get more i ≡ Some e
        → IsEntry g (entry_bytes g new first (length (finite.entries cells.entries) + i)) e)
        → IsImagePart g first new pages (record cells { entries = index }) }
    ensures whole { (g : GeometryValue) (first : ℕ) (old new : CrashState) (base : ℕ) (cells : Cells)
        → IsImagePart g first old g.pages cells → SameOutside (λ n. n ≡ first) old new
        → IsHeader g (sector new first) (header_of base cells)
        → IsImage g first new base cells }
    ensures told { (g : GeometryValue) (first : ℕ) (old new : CrashState) → length new ≡ length old
        → ((n : ℕ) → InImage g first n → sector new n ≡ sector old n)
        → (pages : ℕ) (cells : Cells) → IsImagePart g first old pages cells → IsImagePart g first new pages cells }
{}
