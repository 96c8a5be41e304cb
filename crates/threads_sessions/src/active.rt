//! The active transactions of a session.
ghost use Rattle.std.specs.Prelude.{◌≡◌, ◌<◌, ◌≤◌, None, Some, IfSome, IfErr, MatchOption, OnOk, vec_len, vec_capacity};
ghost use Rattle.std.specs.Prelude.{[], length, map};
ghost use Rattle.record_values.specs.declared.error.Error.TheVariants.{NoMemory};
ghost use Rattle.nsf_core.specs.Value.{value_of};
ghost use Rattle.threads_sessions.specs.Values.{with_write, active_of, rows_of, without};
ghost use Rattle.threads_sessions.specs.Active.{active_value, place_from, IsPlace, HasRoomAt, changed_at};
ghost use Rattle.threads_sessions.specs.Steps.{row_now, rows_now, unfinished_in, still_unfinished, change_seen};
ghost use Rattle.threads_sessions.specs.Steps.{step_seen};
ghost use Rattle.threads_sessions.specs.Steps.{taken_back};

use model::Write;
use nsf_core::Core;
use records::{Error, Rid, Txn};
use std::alloc::Allocator;

/// An active transaction: the row at each place that it holds, a change that is not finished, and whether it is rolling
/// back.
#[derive(Drop)]
pub struct ActiveTxn<A: Allocator> {
    pub txn: Txn,
    pub rows: Vec<Write, A>,
    pub unfinished: Option<Write>,
    pub rolling: bool,
}

// The index of a transaction.
fn index_of<A: Allocator>(active: &[ActiveTxn<A>], txn: Txn) -> Option<usize>
    ensures place { result ≡ place_from txn 0 active.now }
    ensures within { IfSome result (λ i. i < length active.now) }
{
    for (i, one) in active.iter().enumerate() {
        if txn == one.txn {
            return Some(i);
        }
    }
    None
}

// The place of a transaction.
pub(crate) fn place_of<A: Allocator>(active: &[ActiveTxn<A>], txn: Txn) -> Option<usize>
    ensures within { IfSome result (λ i. i < length active.now) }
    ensures found { MatchOption result (active_of txn (map active_value active.now) ≡ None) (λ i.
        IsPlace txn active.now i) }
{
    index_of(active, txn)
}

// Sets a row.
fn set_write<A: Allocator>(rows: &mut Vec<Write, A>, write: Write)
    requires { vec_len rows.old < vec_capacity rows.old }
    ensures { rows.new.items ≡ with_write write rows.old.items }
{
    rows.retain(|held| held.rid != write.rid);
    rows.push_reserved(write);
}

// A list without rows, in memory that is used again, if there is any.
pub(crate) fn no_rows<A: Allocator>(alloc: A, spare: &mut Option<Vec<Write, A>>) -> Vec<Write, A>
    ensures { result.items ≡ [] }
{
    match spare.take() {
        Some(mut rows) => {
            rows.clear();
            rows
        }
        None => Vec::new(alloc),
    }
}

// Makes room for one transaction more.
pub(crate) fn reserve_txn<A: Allocator>(active: &mut Vec<ActiveTxn<A>, A>) -> Result<(), Error>
    ensures same { active.new.items ≡ active.old.items }
    ensures room { OnOk result (vec_len active.new < vec_capacity active.new) }
    ensures no_memory { IfErr result (λ e. e ≡ NoMemory) }
{
    active.reserve(1)?;
    Ok(())
}

// Makes room for one row more.
pub(crate) fn reserve_row<A: Allocator>(
    active: &mut Vec<ActiveTxn<A>, A>,
    i: usize,
) -> Result<(), Error>
    requires { i < vec_len active.old }
    ensures same { map active_value active.new.items ≡ map active_value active.old.items }
    ensures room { OnOk result (HasRoomAt i active.new.items) }
    ensures no_memory { IfErr result (λ e. e ≡ NoMemory) }
{
    active[i].rows.reserve(1)?;
    Ok(())
}

// The row that is at a place now.
fn row_now<A: Allocator + Copy>(core: &Core<A>, rid: Rid) -> Write
    ensures { result ≡ row_now (value_of core.now) rid }
{
    let row = core.get(rid);
    Write { rid, row }
}

// This change, if the transaction owes a step of it.
fn unfinished<A: Allocator + Copy>(core: &Core<A>, txn: Txn, change: Write) -> Option<Write>
    ensures { result ≡ unfinished_in (value_of core.now) txn change }
{
    core.owes(txn)?;
    Some(change)
}

// This change, if there is one and the transaction owes a step of it.
fn still_unfinished<A: Allocator + Copy>(
    core: &Core<A>,
    txn: Txn,
    change: Option<Write>,
) -> Option<Write>
    ensures { result ≡ still_unfinished (value_of core.now) txn change }
{
    match change {
        Some(change) => unfinished(core, txn, change),
        None => None,
    }
}

// Reads the rows at these places anew.
fn read_again<A: Allocator + Copy>(core: &Core<A>, rows: &mut Vec<Write, A>)
    ensures { rows.new.items ≡ rows_now (value_of core.now) rows.old.items }
{
    for i in 0..rows.len() {
        rows[i] = row_now(core, rows[i].rid);
    }
}

// The transaction at this place has begun a change.
pub(crate) fn note_change<A: Allocator + Copy>(
    active: &mut Vec<ActiveTxn<A>, A>,
    i: usize,
    core: &Core<A>,
    change: Write,
)
    requires { HasRoomAt i active.old.items }
    ensures { map active_value active.new.items ≡ changed_at (change_seen (value_of core.now) change) i
        (map active_value active.old.items) }
{
    let write = row_now(core, change.rid);
    let one = &mut active[i];
    set_write(&mut one.rows, write);
    one.unfinished = unfinished(core, one.txn, change);
}

// The transaction at this place has made one more step of its change.
pub(crate) fn note_step<A: Allocator + Copy>(
    active: &mut Vec<ActiveTxn<A>, A>,
    i: usize,
    core: &Core<A>,
)
    requires { i < vec_len active.old }
    ensures { map active_value active.new.items ≡ changed_at (step_seen (value_of core.now)) i
        (map active_value active.old.items) }
{
    let one = &mut active[i];
    read_again(core, &mut one.rows);
    one.unfinished = still_unfinished(core, one.txn, one.unfinished);
}

// The transaction at this place has taken a step back, or had none left.
pub(crate) fn note_undo<A: Allocator + Copy>(
    active: &mut Vec<ActiveTxn<A>, A>,
    i: usize,
    core: &Core<A>,
)
    requires { i < vec_len active.old }
    ensures { map active_value active.new.items ≡ changed_at (taken_back (value_of core.now)) i
        (map active_value active.old.items) }
{
    let one = &mut active[i];
    read_again(core, &mut one.rows);
    one.unfinished = None;
    one.rolling = true;
}

// Takes a transaction out, and answers its rows.
pub(crate) fn take_out<A: Allocator>(
    active: &mut Vec<ActiveTxn<A>, A>,
    i: usize,
    txn: Txn,
) -> Vec<Write, A>
    requires within { i < vec_len active.old }
    requires place { IsPlace txn active.old.items i }
    ensures rows { result.items ≡ rows_of txn (map active_value active.old.items) }
    ensures left { map active_value active.new.items ≡ without txn (map active_value active.old.items) }
{
    let ActiveTxn {
        txn: _,
        rows,
        unfinished: _,
        rolling: _,
    } = active.remove(i);
    active.retain(|one| txn != one.txn);
    rows
}
