//! What every order of steps keeps.
ghost use Rattle.std.specs.Prelude.{◌≡◌, [], Some, List, ℕ, false};
ghost use Rattle.std.specs.FinMap.{get};
ghost use Rattle.record_values.specs.Values.{Place};
ghost use Rattle.record_values.specs.declared.pair.Mark.{Mark};
ghost use Rattle.record_values.specs.declared.pair.Pair.{Pair};
ghost use Rattle.online_model.specs.declared.life.Life.TheVariants.{Complete};
ghost use Rattle.online_model.specs.Example as example;
ghost use Rattle.online_model.specs.Keeping.{Invariant, IsCovered, IsCreated, IsQuiet, ShowsExactlyTheRows};
ghost use Rattle.online_model.specs.Logs.{Cells, IsCopiedBetween, cells_of, notes_over, redone};
ghost use Rattle.online_model.specs.World.{IsEnabled, IsOfRow, Reopen, Runs, Step, World, after, pair_at};

/// A law: an index just created has the invariant, and each step that is enabled keeps it.
pub fn each_step()
    ensures begins { (w : World) → IsCreated w → Invariant w }
    ensures keeps { (w : World) (e : Step) → Invariant w → IsEnabled w e → Invariant (after w e) }
{}

/// A law: after any steps of host and index, in any order, each visible entry is the pair of a row. The pair of each
/// row with no unfinished change is visible, as far as the index is built. A complete index shows exactly the rows
/// where no change is unfinished.
pub fn every_order()
    ensures sound { (begun w : World) (steps : List Step) → IsCreated begun → Runs begun steps w → (p : Pair)
        → get w.entries p ≡ Some Mark.Live → IsOfRow w p }
    ensures covered { (begun w : World) (steps : List Step) → IsCreated begun → Runs begun steps w
        → (r : Place) (key : List ℕ) → w.rows r ≡ Some key → w.busy r ≡ false → IsCovered w (pair_at r key)
        → get w.entries (pair_at r key) ≡ Some Mark.Live }
    ensures exact { (begun w : World) (steps : List Step) → IsCreated begun → Runs begun steps w → w.life ≡ Complete
        → IsQuiet w → ShowsExactlyTheRows w }
{}

/// A law: the notes of any steps, redone in order, give the entries and the life after these steps. They do so also
/// over a copy of which each entry, and the life, was so at some moment of these steps. And with the rows of that
/// moment the index may go on: its builder begins above the checkpoint.
///
/// A log that ends earlier is the log of fewer steps.
pub fn any_stop()
    ensures redone { (begun w : World) (steps : List Step) → Runs begun steps w
        → redone (cells_of begun) (notes_over begun steps) ≡ cells_of w }
    ensures copied { (begun w : World) (steps : List Step) → Runs begun steps w → (copied : Cells)
        → IsCopiedBetween begun steps w copied → redone copied (notes_over begun steps) ≡ cells_of w }
    ensures goes_on { (begun w : World) (steps : List Step) → IsCreated begun → Runs begun steps w
        → Invariant (after w Reopen) }
{}

/// A law: a run in which each step is enabled. An index of a table with one row is created. Another row is inserted,
/// the page is read, and the insertion is rolled back. The builder places the first pair and leaves the marked entry of
/// the second as it is. It makes a checkpoint, the program stops and opens again, the page is read anew, and the build
/// ends. The cleaner takes the marked entry out. The index then shows exactly the row.
pub fn worked_run()
    ensures created { IsCreated example.created }
    ensures run { Runs example.created example.steps example.last }
    ensures complete { example.last.life ≡ Complete }
    ensures quiet { IsQuiet example.last }
    ensures placed { get example.last.entries example.kept ≡ Some Mark.Live }
    ensures cleaned { get example.last.entries example.rolled_back ≡ None }
{}
