//! Steps of a change.
ghost use Rattle.std.specs.Prelude.{◌≡◌, ◌++◌, ◌∷◌, is_none, is_some, slice_get};
ghost use Rattle.core_steps.specs.Keys.{keeps_key, moved_pair};
ghost use Rattle.core_steps.specs.Steps.{some_step, forward_steps, undo_steps, marks_old, sets_new, puts_new};
ghost use Rattle.core_steps.specs.Steps.{marks_new, sets_old, puts_old};

use records::{Change, Mark, Pair, Part, Rid, Row, Rows, TxnAction};

/// A cell of the store, and what a step leaves there.
#[derive(Clone, Copy, Debug, PartialEq, Eq)]
pub enum Cell {
    /// The row at a place, or none.
    Slot { rid: Rid, row: Option<Row> },
    /// The mark of an entry of the index, which the step plants where it is absent.
    Entry { pair: Pair, mark: Mark },
}

/// One step of a change, or of its undo.
#[derive(Clone, Copy, Debug, PartialEq, Eq)]
pub struct Step {
    /// What the step sets.
    pub cell: Cell,
    /// What the record of the step says: its kind and its fields.
    pub action: TxnAction,
}

/// The step that a change makes after the first `made` ones, and none after its
/// last.
///
/// A change marks the entry of the old row, sets the row, and puts the entry of
/// the new row. The first is left out where there is no index, no old row, or
/// where the new row has the same key, the third where there is no index, no new
/// row, or where the old row has the same key.
pub fn forward(change: &Change, indexed: bool, made: usize) -> Option<Step>
    ensures { result ≡ slice_get (forward_steps indexed change.now) made }
{
    match (has_old_entry(change, indexed), made) {
        (true, 0) => marks_old(change, indexed),
        (true, 1) | (false, 0) => Some(sets_new(change)),
        (true, 2) | (false, 1) => puts_new(change, indexed),
        _ => None,
    }
}

/// The step that the undo of a change makes after the first `made` ones, and none
/// after its last.
///
/// These are the steps of a change with the old and the new row exchanged,
/// whichever steps of the change were made: it marks the entry of the new row,
/// sets the old row, and puts the entry of the old row. The record of the last
/// step takes the change off its transaction's list.
pub fn undo(change: &Change, indexed: bool, made: usize) -> Option<Step>
    ensures { result ≡ slice_get (undo_steps indexed change.now) made }
{
    match (has_new_entry(change, indexed), made) {
        (true, 0) => marks_new(change, indexed),
        (true, 1) | (false, 0) => Some(sets_old(change, !has_old_entry(change, indexed))),
        (true, 2) | (false, 1) => puts_old(change, indexed),
        _ => None,
    }
}

// Whether the rows before and after a change have one key.
fn keeps_key(rows: &Rows) -> bool
    ensures { result ≡ keeps_key rows.now }
{
    match rows {
        Rows::Inserted { .. } | Rows::Deleted { .. } => false,
        Rows::Updated { old, new } => old.key == new.key,
    }
}

// The pair of this row of the change, where the change moves its entry.
fn moved_pair(change: &Change, indexed: bool, row: Option<Row>) -> Option<Pair>
    ensures { result ≡ moved_pair indexed change.now row }
{
    let row = row?;
    if indexed && !keeps_key(&change.rows) {
        Some(Pair {
            key: row.key,
            rid: change.rid,
        })
    } else {
        None
    }
}

/// Whether the change has a step that marks the entry of the old row, and its undo one that puts it.
pub fn has_old_entry(change: &Change, indexed: bool) -> bool
    ensures marked { result ≡ is_some (marks_old indexed change.now) }
    ensures put { result ≡ is_some (puts_old indexed change.now) }
{
    match &change.rows {
        Rows::Inserted { .. } => false,
        Rows::Deleted { .. } | Rows::Updated { .. } => indexed && !keeps_key(&change.rows),
    }
}

// The step that marks the entry of the old row, where the change has it.
fn marks_old(change: &Change, indexed: bool) -> Option<Step>
    ensures { result ≡ marks_old indexed change.now }
{
    let pair = moved_pair(change, indexed, change.rows.old())?;
    let mark = Mark::Marked;
    Some(Step {
        cell: Cell::Entry { pair, mark },
        action: forward_action(Part::OldEntry, change),
    })
}

// The step that sets the row of a change.
fn sets_new(change: &Change) -> Step
    ensures { result ≡ sets_new change.now }
{
    let rid = change.rid;
    let row = change.rows.new();
    Step {
        cell: Cell::Slot { rid, row },
        action: forward_action(Part::Slot, change),
    }
}

// The step that puts the entry of the new row, where the change has it.
fn puts_new(change: &Change, indexed: bool) -> Option<Step>
    ensures { result ≡ puts_new indexed change.now }
{
    let pair = moved_pair(change, indexed, change.rows.new())?;
    let mark = Mark::Live;
    Some(Step {
        cell: Cell::Entry { pair, mark },
        action: forward_action(Part::NewEntry, change),
    })
}

/// Whether the change has a step that puts the entry of the new row, and its undo one that marks it.
pub fn has_new_entry(change: &Change, indexed: bool) -> bool
    ensures marked { result ≡ is_some (marks_new indexed change.now) }
    ensures put { result ≡ is_some (puts_new indexed change.now) }
{
    match &change.rows {
        Rows::Deleted { .. } => false,
        Rows::Inserted { .. } | Rows::Updated { .. } => indexed && !keeps_key(&change.rows),
    }
}

// The undo's step that marks the entry of the new row, where the change has it.
fn marks_new(change: &Change, indexed: bool) -> Option<Step>
    ensures { result ≡ marks_new indexed change.now }
{
    let pair = moved_pair(change, indexed, change.rows.new())?;
    let mark = Mark::Marked;
    Some(Step {
        cell: Cell::Entry { pair, mark },
        action: undo_action(Part::NewEntry, change, false),
    })
}

// The undo's step that sets the old row, or none; `last` where it takes the change off its
// transaction's list.
fn sets_old(change: &Change, last: bool) -> Step
    ensures { result ≡ sets_old change.now last }
{
    let rid = change.rid;
    let row = change.rows.old();
    Step {
        cell: Cell::Slot { rid, row },
        action: undo_action(Part::Slot, change, last),
    }
}

// The undo's step that puts the entry of the old row, where the change has it. It is the last.
fn puts_old(change: &Change, indexed: bool) -> Option<Step>
    ensures { result ≡ puts_old indexed change.now }
{
    let pair = moved_pair(change, indexed, change.rows.old())?;
    let mark = Mark::Live;
    Some(Step {
        cell: Cell::Entry { pair, mark },
        action: undo_action(Part::OldEntry, change, true),
    })
}

fn forward_action(part: Part, change: &Change) -> TxnAction
    ensures { result ≡ TxnAction.Forward part change.now }
{
    let change = *change;
    TxnAction::Forward { part, change }
}

fn undo_action(part: Part, change: &Change, last: bool) -> TxnAction
    ensures { result ≡ TxnAction.Undo part change.now last }
{
    let change = *change;
    TxnAction::Undo { part, change, last }
}
