//! Laws of copied images.
ghost use Rattle.std.specs.Prelude.{◌≡◌, ◌≤◌, ◌+◌, ◌++◌, ℕ, List, take, Option, Some, None};
ghost use Rattle.std.specs.declared.cmp.Ordering.TheVariants.{Less};
ghost use Rattle.std.specs.FinMap as map;
ghost use Rattle.records.specs.RecordValue.{RecordValue};
ghost use Rattle.record_values.specs.Orders.{pair_cmp};
ghost use Rattle.record_values.specs.declared.pair.Pair.{Pair};
ghost use Rattle.record_values.specs.declared.pair.Mark.{Mark};
ghost use Rattle.model.specs.Table.{Table};
ghost use Rattle.record_values.specs.Entries.{Index};
ghost use Rattle.model.specs.Cells.{Cells, cells_after};
ghost use Rattle.model.specs.Following.{AreFollowing, IsWithin};
ghost use Rattle.model.specs.Images.{IsCopied};
ghost use Rattle.store_image_model.specs.Run.{Run, IsRun, IsCopiedFrom, end_of, cells_at};
ghost use Rattle.store_image_model.specs.Run.{records_between};
ghost use Rattle.store_image_model.specs.Partly.{IsPartlyCopied, ArePageRows, AreNextEntries, AreLastEntries, joined};

/// A law: the records of a run that are redone over an image, which was copied while they were made, give the cells
/// after the last of them, once they reach the last step of the copying. A reader that redoes them meets none that
/// can't follow.
pub fn redone_image()
    ensures redone { (run : Run) (base to n : ℕ) (image : Cells) → IsCopiedFrom run base to image → run.last ≤ base
        → base ≤ n → to ≤ n
        → cells_after image (records_between run base n) ≡ cells_at run n }
    ensures following { (run : Run) (base to n : ℕ) (image : Cells) → IsCopiedFrom run base to image → IsRun run
        → run.last ≤ base → base ≤ end_of run
        → AreFollowing run.geometry.pages base image (records_between run base n) }
    ensures reached { (run : Run) (base n : ℕ) → run.last ≤ base → base ≤ n
        → cells_after (cells_at run base) (records_between run base n) ≡ cells_at run n }
{}

/// A law: an image is copied in steps, each as the cells are after some more records of the log. It begins with nothing
/// copied; then comes each page in order, and then some entries at a time, in order; and with the last ones it is a
/// copy, with the lists and the life that it began with.
pub fn copied_in_steps()
    ensures began { (cells : Cells) (log : List RecordValue) → IsPartlyCopied cells log 0 0 None map.empty map.empty }
    ensures page { (cells : Cells) (log : List RecordValue) (m n page : ℕ) (highest : Option Pair) (rows more : Table)
        (entries : Index) → IsPartlyCopied cells log m page highest rows entries → m ≤ n
        → ArePageRows (cells_after cells (take n log)) page more
        → IsPartlyCopied cells log n (page + 1) highest (joined more rows) entries }
    ensures entries { (cells : Cells) (log : List RecordValue) (m n pages : ℕ) (above highest : Option Pair)
        (rows : Table) (entries more : Index) → IsPartlyCopied cells log m pages above rows entries → m ≤ n
        → AreNextEntries (cells_after cells (take n log)) above highest more
        → IsPartlyCopied cells log n pages highest rows (joined more entries) }
    ensures last { (cells : Cells) (log : List RecordValue) (m n pages : ℕ) (above : Option Pair) (rows : Table)
        (entries more : Index) → IsPartlyCopied cells log m pages above rows entries → m ≤ n
        → AreLastEntries (cells_after cells (take n log)) above more → IsWithin pages cells.rows
        → IsCopied cells log n (record {
          rows = rows;
          entries = joined more entries;
          pending = cells.pending;
          life = cells.life;
        }) }
{}

/// A law: where each pair of some entries is below each pair of others, both together are the entries of the first in
/// order, and behind them those of the others (`both`). So it is where entries are copied above those that were copied
/// (`next`, `last`).
pub fn joined_in_order()
    ensures both { (entries more : Index) → ((low high : Pair) (a b : Mark) → map.get entries low ≡ Some a
        → map.get more high ≡ Some b → pair_cmp low high ≡ Less)
        → map.entries (joined more entries) ≡ map.entries entries ++ map.entries more }
    ensures next { (cells now : Cells) (log : List RecordValue) (m pages : ℕ) (above highest : Option Pair)
        (rows : Table) (entries more : Index) → IsPartlyCopied cells log m pages above rows entries
        → AreNextEntries now above highest more
        → map.entries (joined more entries) ≡ map.entries entries ++ map.entries more }
    ensures last { (cells now : Cells) (log : List RecordValue) (m pages : ℕ) (above : Option Pair) (rows : Table)
        (entries more : Index) → IsPartlyCopied cells log m pages above rows entries → AreLastEntries now above more
        → map.entries (joined more entries) ≡ map.entries entries ++ map.entries more }
{}
