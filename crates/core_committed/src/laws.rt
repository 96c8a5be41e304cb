//! Laws of what is committed.
ghost use Rattle.std.specs.Prelude.{◌≡◌, ◌↔◌, List, Contains, map, true, ℕ};
ghost use Rattle.std.specs.List.Sorted.{IsStrictlySortedBy};
ghost use Rattle.record_values.specs.Orders.{rid_cmp};
ghost use Rattle.record_values.specs.declared.pair.Pair.{Pair};
ghost use Rattle.records.specs.RecordValue.{RecordValue};
ghost use Rattle.model.specs.History.{table_after};
ghost use Rattle.model.specs.Table.{IsPairOf};
ghost use Rattle.model.specs.declared.life.Life.TheVariants.{Complete};
ghost use Rattle.core_model.specs.Events.{Event, Reply};
ghost use Rattle.core_model.specs.Histories.{CanOpen, Opened, no_writes};
ghost use Rattle.core_model.specs.Served.{items_of};
ghost use Rattle.core_parts.specs.View.{CoreValue};
ghost use Rattle.core_laws.specs.Calls.{HasReplied};
ghost use Rattle.core_laws.specs.Holds.{committed_rows};
ghost use Rattle.core_scan.specs.Ranges.{is_within};
ghost use Rattle.core_scan.specs.Visible.{visible};
ghost use Rattle.core_scan.specs.declared.range.KeyRange.{KeyRange};
ghost use Rattle.core_committed.specs.Committed.{committed_index, only};

use core_scan::each_visible;

/// A law. Of a core that has replied to some calls since it was opened, whichever transactions are active, the
/// committed rows are the table of the history that the replies tell. A pair that is read is that of a committed row,
/// with a key of the range. With a complete index all of them are read. The places of one key ascend, each once.
pub fn each_committed()
    ensures table { (o : Opened) → CanOpen o → (pairs : List (Event × Reply)) (handed : List RecordValue)
        (v : CoreValue) → HasReplied o pairs handed v
        → committed_rows v ≡ table_after o.given.table (items_of no_writes pairs) }
    ensures never { (v : CoreValue) (range : KeyRange) (p : Pair) → Contains (visible (committed_index v) range) p
        → IsPairOf (committed_rows v) p × (is_within range p.key ≡ true) }
    ensures all { (o : Opened) → CanOpen o → (pairs : List (Event × Reply)) (handed : List RecordValue)
        (v : CoreValue) → HasReplied o pairs handed v → v.life ≡ Complete → (range : KeyRange) (p : Pair)
        → IsPairOf (committed_rows v) p → is_within range p.key ≡ true
        → Contains (visible (committed_index v) range) p }
    ensures places { (v : CoreValue) (key : List ℕ)
        → IsStrictlySortedBy rid_cmp (map (λ p. p.rid) (visible (committed_index v) (only key))) }
{
    each_visible();
}
