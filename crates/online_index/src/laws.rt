//! What the theorem of `online_model` says of an index.
ghost use Rattle.std.specs.Prelude.{◌≡◌, ◌↔◌, ◌++◌, ◌∷◌, None, Some, Contains, List, ℕ, false, true};
ghost use Rattle.std.specs.FinMap.{empty, get};
ghost use Rattle.std.specs.List.Sorted.{IsStrictlySortedBy};
ghost use Rattle.record_values.specs.Orders.{pair_cmp};
ghost use Rattle.record_values.specs.Values.{Place};
ghost use Rattle.record_values.specs.declared.pair.Mark.{Mark};
ghost use Rattle.record_values.specs.declared.pair.Pair.{Pair};
ghost use Rattle.entry_scan.specs.Ranges.{is_within};
ghost use Rattle.entry_scan.specs.Visible.{visible};
ghost use Rattle.entry_scan.specs.declared.range.KeyRange.{KeyRange};
ghost use Rattle.online_model.specs.declared.life.Life.{Life};
ghost use Rattle.online_model.specs.declared.life.Life.TheVariants.{Building, Complete};
ghost use Rattle.online_model.specs.declared.note.Note.{Note};
ghost use Rattle.online_model.specs.declared.note.Note.TheVariants.{LifeIs};
ghost use Rattle.online_model.specs.Keeping.{IsCreated, IsQuiet};
ghost use Rattle.online_model.specs.Logs.{Cells, HeldAtSomeMoment, IsCopiedBetween, notes_over, redone};
ghost use Rattle.online_model.specs.World.{IsOfRow, Reopen, Runs, Step, World, after, pair_at};
ghost use Rattle.online_index.specs.Pieces.{IsSavedDuring};
ghost use Rattle.online_index.specs.Standing.{IsCovered, StandsFor};
ghost use Rattle.online_index.specs.Value.{IndexValue, held_by, reopened};

use entry_scan::each_visible;
use online_model::{any_stop, every_order};

/// A law: an index that stands for a world, to which enabled steps of host and index led in any order, shows no pair
/// but a row's. It shows the pair of each row with no unfinished change, as far as it is built. Once complete, and
/// where no change is unfinished, it shows exactly the rows.
pub fn every_index()
    ensures sound { (begun w : World) (steps : List Step) (v : IndexValue) → IsCreated begun → Runs begun steps w
        → StandsFor v w → (p : Pair) → get v.entries p ≡ Some Mark.Live → IsOfRow w p }
    ensures covered { (begun w : World) (steps : List Step) (v : IndexValue) → IsCreated begun → Runs begun steps w
        → StandsFor v w → (r : Place) (key : List ℕ) → w.rows r ≡ Some key → w.busy r ≡ false
        → IsCovered v (pair_at r key) → get v.entries (pair_at r key) ≡ Some Mark.Live }
    ensures exact { (begun w : World) (steps : List Step) (v : IndexValue) → IsCreated begun → Runs begun steps w
        → StandsFor v w → v.life ≡ Complete → IsQuiet w → (p : Pair)
        → (get v.entries p ≡ Some Mark.Live) ↔ IsOfRow w p }
{
    every_order();
}

/// A law: once such an index is complete, and where no change is unfinished, the visible pairs of a range are exactly
/// those of the rows whose keys are in it. They come in order, each once.
pub fn every_range()
    ensures ascending { (v : IndexValue) (range : KeyRange)
        → IsStrictlySortedBy pair_cmp (visible v.entries range) }
    ensures rows { (begun w : World) (steps : List Step) (v : IndexValue) → IsCreated begun → Runs begun steps w
        → StandsFor v w → v.life ≡ Complete → IsQuiet w → (range : KeyRange) (p : Pair)
        → Contains (visible v.entries range) p ↔ (IsOfRow w p × (is_within range p.key ≡ true)) }
{
    every_index();
    each_visible();
}

/// A law: an index just created, over which the notes of any steps were redone in order, holds what the index held that
/// made these steps. So does a copy of it, taken during some of the steps, over which the notes of these were redone.
/// And so does an index just created over which a checkpoint is redone and then these notes: the life as it was at some
/// moment of these steps, and the pieces that `save` made, each at a moment of its own.
pub fn every_redo()
    ensures created { (begun w : World) (steps : List Step) (v : IndexValue) → IsCreated begun → Runs begun steps w
        → StandsFor v w
        → redone (record { entries = empty; life = Building None }) (notes_over begun steps) ≡ held_by v }
    ensures copied { (begun w : World) (steps : List Step) (v : IndexValue) → Runs begun steps w → StandsFor v w
        → (copied : Cells) → IsCopiedBetween begun steps w copied
        → redone copied (notes_over begun steps) ≡ held_by v }
    ensures saved { (begun w : World) (steps : List Step) (v : IndexValue) (life : Life) (pieces : List Note)
        → HeldAtSomeMoment begun steps w (λ m. life ≡ m.life) → IsSavedDuring w None begun steps pieces
        → StandsFor v w
        → redone (record { entries = empty; life = Building None })
        (LifeIs life ∷ (pieces ++ notes_over begun steps)) ≡ held_by v }
{
    any_stop();
}

/// A law: an index that holds what these notes give, be they all notes since it was created or those of a checkpoint
/// and of the steps since that began, stands, once it is reopened, for the world after these steps and `Reopen`. So
/// what `every_index` says, it says of every order of steps that goes on from there.
pub fn every_reopening()
    ensures created { (begun w : World) (steps : List Step) (v : IndexValue) → IsCreated begun → Runs begun steps w
        → held_by v ≡ redone (record { entries = empty; life = Building None }) (notes_over begun steps)
        → StandsFor (reopened v w.pages) (after w Reopen) }
    ensures saved { (begun w : World) (steps : List Step) (v : IndexValue) (life : Life) (pieces : List Note)
        → HeldAtSomeMoment begun steps w (λ m. life ≡ m.life) → IsSavedDuring w None begun steps pieces
        → held_by v ≡ redone (record { entries = empty; life = Building None })
        (LifeIs life ∷ (pieces ++ notes_over begun steps))
        → StandsFor (reopened v w.pages) (after w Reopen) }
{
    any_stop();
}
