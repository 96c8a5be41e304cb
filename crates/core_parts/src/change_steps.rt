//! The steps of a change, and those of its undo, each of these found by how many come before it.
ghost use Rattle.std.specs.Prelude.{◌≡◌, Some, is_none, option_and_then};
ghost use Rattle.core_steps.specs.Steps.{marks_new, marks_old, puts_new, puts_old, sets_old};
ghost use Rattle.core_parts.specs.Private.{entry_in};

use core_steps::{Cell, Step, has_new_entry, has_old_entry, undo};
use records::{Change, Pair, Part, Row, TxnAction};

// The entry that a step of an undo sets, and what its record says; none where it sets a row, or where
// there is no step.
fn entry_of(step: Option<Step>) -> Option<(Pair, TxnAction)>
    ensures { result ≡ option_and_then entry_in step }
{
    let Step { cell, action } = step?;
    match cell {
        Cell::Slot { .. } => None,
        Cell::Entry { pair, .. } => Some((pair, action)),
    }
}

// The pair of this row of a change.
fn pair_of(change: &Change, row: Row) -> Pair
    ensures { result ≡ record { key = row.key; rid = change.now.rid } }
{
    Pair {
        key: row.key,
        rid: change.rid,
    }
}

// What the record of this part of a change says.
fn forward_action(part: Part, change: &Change) -> TxnAction
    ensures { result ≡ TxnAction.Forward part change.now }
{
    let change = *change;
    TxnAction::Forward { part, change }
}

/// The entry that a change marks, where it marks one, and what the record says. It is the first step.
pub(crate) fn marks_old(change: &Change, indexed: bool) -> Option<(Pair, TxnAction)>
    ensures { result ≡ option_and_then entry_in (marks_old indexed change.now) }
{
    if !has_old_entry(change, indexed) {
        return None;
    }
    let row = change.rows.old()?;
    Some((pair_of(change, row), forward_action(Part::OldEntry, change)))
}

/// What the record of a change's row says.
pub(crate) fn sets_new(change: &Change) -> TxnAction
    ensures { result ≡ TxnAction.Forward Part.Slot change.now }
{
    forward_action(Part::Slot, change)
}

/// The entry that a change puts, where it puts one, and what the record says. It is the last step.
pub(crate) fn puts_new(change: &Change, indexed: bool) -> Option<(Pair, TxnAction)>
    ensures { result ≡ option_and_then entry_in (puts_new indexed change.now) }
{
    if !has_new_entry(change, indexed) {
        return None;
    }
    let row = change.rows.new()?;
    Some((pair_of(change, row), forward_action(Part::NewEntry, change)))
}

/// The entry that the undo of a change marks, where it marks one, and what the record says. It is the first step.
pub(crate) fn marks_new(change: &Change, indexed: bool) -> Option<(Pair, TxnAction)>
    ensures { result ≡ option_and_then entry_in (marks_new indexed change.now) }
{
    entry_of(undo(change, indexed, 0))
}

// The step of an undo behind the one that marks an entry, if there is such, sets the row back.
fn row_back_step(change: &Change, indexed: bool) -> Option<Step>
    ensures { result ≡ Some (sets_old change.now (is_none (puts_old indexed change.now))) }
{
    if has_new_entry(change, indexed) {
        return undo(change, indexed, 1);
    }
    undo(change, indexed, 0)
}

/// What the record of the row says that the undo of a change sets back.
pub(crate) fn sets_old(change: &Change, indexed: bool) -> TxnAction
    ensures { result ≡ TxnAction.Undo Part.Slot change.now (is_none (puts_old indexed change.now)) }
{
    let Some(step) = row_back_step(change, indexed) else {
        unreachable!()
    };
    step.action
}

/// The entry that the undo of a change puts back, where it puts one, and what the record says. It is the last step.
pub(crate) fn puts_old(change: &Change, indexed: bool) -> Option<(Pair, TxnAction)>
    ensures { result ≡ option_and_then entry_in (puts_old indexed change.now) }
{
    if has_new_entry(change, indexed) {
        return entry_of(undo(change, indexed, 2));
    }
    entry_of(undo(change, indexed, 1))
}
