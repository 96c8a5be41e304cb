//! The committed row of a place.
ghost use Rattle.std.specs.Prelude.{◌≡◌, [], Option, slice_get, unwrap_or};
ghost use Rattle.std.specs.FinMap as map;
ghost use Rattle.std.specs.Option.{option_map};
ghost use Rattle.record_values.specs.declared.row.Row.{Row};
ghost use Rattle.model.specs.Cells.{reverted};
ghost use Rattle.model.specs.Table.{Table};
ghost use Rattle.nsf_core.specs.Value.{value_of};
ghost use Rattle.core_laws.specs.Holds.{committed_rows};

use nsf_core::Core;
use records::{Change, Rid, Row};
use std::alloc::Allocator;

// The row that the place has once these changes are taken back, where it has this one now.
fn taken_back(changes: &[Change], rid: Rid, row: Option<Row>) -> Option<Row>
    ensures { (rows : Table) → map.get rows rid ≡ row → result ≡ map.get (reverted rows changes.now) rid }
{
    for change in changes {
        if change.rid == rid {
            return change.rows.old();
        }
    }
    row
}

// The changes of the active transaction at this place in the order of beginning; none where there is no such one.
fn changes_at<A: Allocator + Copy>(core: &Core<A>, index: usize) -> &[Change]
    ensures { result.now ≡ unwrap_or (option_map (λ e. e.1.changes)
        (slice_get (value_of core.now).txns.active index)) [] }
{
    core.stands();
    let Some(txn) = core.txn_at(index) else {
        return &[];
    };
    match core.changes(txn) {
        Some(changes) => changes,
        None => &[],
    }
}

/// The committed row of the place: the row that it has with the changes of every active transaction taken back. It
/// takes no memory.
pub fn get_committed<A: Allocator + Copy>(core: &Core<A>, rid: Rid) -> Option<Row>
    ensures { result ≡ map.get (committed_rows (value_of core.now)) rid }
{
    let mut row = core.get(rid);
    for index in 0..core.active_txns() {
        row = taken_back(changes_at(core, index), rid, row);
    }
    row
}
