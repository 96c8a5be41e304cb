//! Laws of the definitions, for the crates above.
ghost use Rattle.std.specs.Prelude.{◌≡◌, ◌<◌, ◌≤◌, ◌+◌, ◌++◌, [], ◌∷◌, ℕ, List, take, length};
ghost use Rattle.std.specs.FinMap as map;
ghost use Rattle.std.specs.Prelude.{Option, Some, true};
ghost use Rattle.record_values.specs.Values.{Place};
ghost use Rattle.record_values.specs.declared.row.Row.{Row};
ghost use Rattle.records.specs.ChangeValue.{ChangeValue};
ghost use Rattle.records.specs.RecordValue.{RecordValue};
ghost use Rattle.record_values.specs.Maps.{set_at};
ghost use Rattle.model.specs.declared.write.Write.{Write};
ghost use Rattle.model.specs.declared.life.Life.{Life};
ghost use Rattle.model.specs.Table.{Table, applied};
ghost use Rattle.model.specs.Images.{IsCopied};
ghost use Rattle.model.specs.Given.{Given, IsBeginning, given_after, opening_cells, recovered};
ghost use Rattle.record_values.specs.declared.pair.Pair.{Pair};
ghost use Rattle.record_values.specs.declared.pair.Mark.TheVariants.{Live};
ghost use Rattle.model.specs.Table.{IsPairOf};
ghost use Rattle.model.specs.Cells.{Cells, cells_after, set_by, list_of, noted, taken_off};
ghost use Rattle.records.specs.declared.record.Action.{Action};
ghost use Rattle.model.specs.Inside.{AreInside, IsGivenInside};
ghost use Rattle.model.specs.Following.{CanFollow, CanFollowBy, AreFollowing, ArePlaced, IsFirstUnfit};
ghost use Rattle.model.specs.History.{Item, table_after, table_with, life_after, life_with, up_to, AreRising};

/// An item after others counts last.
pub fn one_more_item()
    ensures table { (table : Table) (items : List Item) (item : Item)
        → table_after table (items ++ item ∷ []) ≡ table_with (table_after table items) item.deed }
    ensures life { (life : Life) (items : List Item) (item : Item)
        → life_after life (items ++ item ∷ []) ≡ life_with (life_after life items) item.deed }
    ensures held { (n m : ℕ) (items : List Item) (item : Item) → AreRising m (items ++ item ∷ []) → item.number ≤ n
        → up_to n (items ++ item ∷ []) ≡ items ++ item ∷ [] }
    ensures later { (n : ℕ) (items : List Item) (item : Item) → n < item.number
        → up_to n (items ++ item ∷ []) ≡ up_to n items }
    ensures prefix { (n m : ℕ) (items : List Item) → AreRising m items → (k : ℕ) × (up_to n items ≡ take k items) }
{}

/// The first record of a change puts it at the end of its transaction's list,
/// a later one leaves the list, and the last one of its undo takes it off.
pub fn listed_changes()
    ensures first { (changes : List ChangeValue) (c : ChangeValue) → c.position ≡ length changes
        → noted changes c ≡ changes ++ c ∷ [] }
    ensures again { (changes : List ChangeValue) (c : ChangeValue) → c.position ≡ length changes
        → noted (changes ++ c ∷ []) c ≡ changes ++ c ∷ [] }
    ensures last { (changes : List ChangeValue) (c : ChangeValue) → taken_off (changes ++ c ∷ []) true ≡ changes }
{}

/// A commit after another applies last.
pub fn commit_order()
    ensures { (table : Table) (writes later : List Write)
        → applied table (writes ++ later) ≡ applied (applied table writes) later }
{}

/// What was set at a place is there.
pub fn set_is_there()
    ensures { (table : Table) (r : Place) (x : Option Row) → map.get (set_at table r x) r ≡ x }
{}

/// Records follow one another where each part of them does, behind what the parts before it left, and not where one
/// is the first that can't. The changes on the lists then have their positions, and pages of the store.
pub fn following_records()
    ensures last { (pages last : ℕ) (cells : Cells) (records : List RecordValue) (r : RecordValue)
        → AreFollowing pages last cells records
        → CanFollow pages (last + length records) (cells_after cells records) r
        → AreFollowing pages last cells (records ++ r ∷ []) }
    ensures prefix { (pages last : ℕ) (cells : Cells) (records : List RecordValue) (n : ℕ)
        → AreFollowing pages last cells records → AreFollowing pages last cells (take n records) }
    ensures joined { (pages last : ℕ) (cells : Cells) (records later : List RecordValue)
        → AreFollowing pages last cells records
        → AreFollowing pages (last + length records) (cells_after cells records) later
        → AreFollowing pages last cells (records ++ later) }
    ensures earlier { (pages last : ℕ) (cells : Cells) (records later : List RecordValue)
        → AreFollowing pages last cells (records ++ later) → AreFollowing pages last cells records }
    ensures later { (pages last : ℕ) (cells : Cells) (records later : List RecordValue)
        → AreFollowing pages last cells (records ++ later)
        → AreFollowing pages (last + length records) (cells_after cells records) later }
    ensures unfit { (pages last : ℕ) (cells : Cells) (records : List RecordValue) (n : ℕ)
        → IsFirstUnfit pages last cells records n → ¬ AreFollowing pages last cells records }
    ensures placed { (pages last : ℕ) (cells : Cells) (records : List RecordValue)
        → AreFollowing pages last cells records
        → ((txn : ℕ) → ArePlaced pages 0 (list_of cells.pending txn)) → (txn : ℕ)
        → ArePlaced pages 0 (list_of (cells_after cells records).pending txn) }
    ensures first { (pages last : ℕ) (cells : Cells) (records : List RecordValue) (m n : ℕ)
        → IsFirstUnfit pages last cells records m → IsFirstUnfit pages last cells records n → m ≡ n }
{}

/// Records that are redone over an image that was copied while they were made give the cells that they were made in,
/// once all records up to the last copied piece are among them; and so the image with its log gives what all records up
/// to there give.
pub fn copied_image()
    ensures cells { (cells : Cells) (log : List RecordValue) (m : ℕ) (image : Cells) → IsCopied cells log m image
        → (k : ℕ) → m ≤ k → cells_after image (take k log) ≡ cells_after cells (take k log) }
    ensures given { (opening : Given) (before log : List RecordValue) (m : ℕ) (image : Cells)
        → IsCopied (cells_after (opening_cells opening) before) log m image → (k : ℕ) → m ≤ k
        → recovered (cells_after image (take k log)) (opening.last + length before + length (take k log))
        ≡ given_after opening (before ++ take k log) }
    ensures following { (pages last : ℕ) (cells : Cells) (log : List RecordValue) (m : ℕ) (image : Cells)
        → IsCopied cells log m image → (records : List RecordValue) → AreFollowing pages last cells records
        → AreFollowing pages last image records }
{}

/// A law: what is given with no record is the opening, and is a beginning of every history from there on; a beginning
/// stays one as the history goes on, and with a lower floor.
pub fn beginnings()
    ensures again { (given : Given) → given_after given [] ≡ given }
    ensures itself { (given : Given) (items : List Item) → AreRising given.last items
        → ((p : Pair) → map.get given.entries p ≡ Some Live → IsPairOf given.table p)
        → IsBeginning given items given.last given }
    ensures further { (opening : Given) (items later : List Item) (floor : ℕ) (given : Given)
        → IsBeginning opening items floor given → AreRising given.last later
        → IsBeginning opening (items ++ later) floor given }
    ensures lower { (opening : Given) (items : List Item) (floor lower : ℕ) (given : Given)
        → IsBeginning opening items floor given → lower ≤ floor → IsBeginning opening items lower given }
{}

/// What the cells of a store hold stays in its pages by each record that can follow, and so does what is recovered of
/// them.
pub fn inside_pages()
    ensures record { (pages : ℕ) (cells : Cells) (action : Action) → CanFollowBy pages cells action
        → AreInside pages cells → AreInside pages (set_by cells action) }
    ensures recovered { (pages : ℕ) (cells : Cells) (last : ℕ) → AreInside pages cells
        → IsGivenInside pages (recovered cells last) }
{}
