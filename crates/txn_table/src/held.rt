//! The rows that somebody holds.
ghost use Rattle.std.specs.Prelude.{◌≡◌, ◌<◌, ◌^◌, ◌↔◌, [], take, length, not, filter, IsTrue, IfErr, OnOk, OnErr};
ghost use Rattle.std.specs.Prelude.{if◌then◌else◌};
ghost use Rattle.record_values.specs.Values.{is_among};
ghost use Rattle.txn_table.specs.Table.{with_rid};
ghost use Rattle.txn_table.specs.Held.{AreBelow, IsBoundOf, place_number};

use crate::active::ActiveTxn;
use records::{Error, Rid, SLOTS_PER_PAGE};
use std::alloc::Allocator;
use std::marker::Model;

/// The rows that somebody holds, in the order in which they were touched first.
#[derive(Drop)]
pub(crate) struct HeldRows<A: Allocator> {
    rows: Vec<Rid, A>,
    // the least number that all their numbers are below: so a row behind all of them is told without a search
    bound: u64,
}

impl<A: Allocator> Model for HeldRows<A> {
    ghost use Rattle.std.specs.Prelude.{List};
    ghost use Rattle.record_values.specs.Values.{Place};
    ghost use Rattle.txn_table.specs.Held.{IsBoundOf};

    ghost Value = { List Place };

    ghost view = { λ h. h.rows.items };

    ghost invariant = { λ h. IsBoundOf h.rows.items h.bound };
}

// How many places are before this one.
fn place_number(rid: Rid) -> u64
    ensures number { result ≡ place_number rid }
    ensures few { result < 2 ^ 38 }
{
    u64::from(rid.page) * u64::from(SLOTS_PER_PAGE) + u64::from(rid.slot)
}

// The least number that the numbers of all these rows are below.
fn bound_of(rows: &[Rid]) -> u64
    ensures { IsBoundOf rows.now result }
{
    let mut bound: u64 = 0;
    for rid in rows {
        bound = bound.max(place_number(*rid) + 1);
    }
    bound
}

impl<A: Allocator + Copy> HeldRows<A> {
    /// No row is held.
    pub(crate) fn new(alloc: A) -> Self
        ensures { result ≡ [] }
    {
        HeldRows {
            rows: Vec::new(alloc),
            bound: 0,
        }
    }

    /// How many there are.
    pub(crate) fn len(&self) -> usize
        ensures { result ≡ length self.now }
    {
        self.rows.len()
    }

    /// All of them.
    pub(crate) fn as_slice(&self) -> &[Rid]
        ensures { result.now ≡ self.now }
    {
        self.rows.as_slice()
    }

    /// Whether the row is behind all of them.
    pub(crate) fn are_before(&self, rid: Rid) -> bool
        ensures { IsTrue result ↔ AreBelow (place_number rid) self.now }
    {
        self.bound <= place_number(rid)
    }

    /// Adds the row, unless it is there. `NoMemory` leaves them as before.
    pub(crate) fn hold(&mut self, rid: Rid, is_held: bool) -> Result<(), Error>
        requires { is_held ≡ is_among rid self.old }
        ensures ok { OnOk result (self.new ≡ with_rid rid self.old) }
        ensures err { OnErr result (self.new ≡ self.old) }
        ensures no_memory { IfErr result (λ e. e ≡ Error.NoMemory) }
    {
        if is_held {
            return Ok(());
        }
        self.rows.push(rid)?;
        self.bound = self.bound.max(place_number(rid) + 1);
        Ok(())
    }

    /// Takes those behind the first so many off.
    pub(crate) fn cut(&mut self, len: usize)
        ensures { self.new ≡ take len self.old }
    {
        self.rows.truncate(len);
        self.bound = bound_of(&self.rows);
    }

    /// Takes the rows of a transaction that ends off. Where it is the last one, these are all.
    pub(crate) fn release(&mut self, ended: &ActiveTxn<A>, is_last: bool)
        ensures { self.new ≡ (if is_last then [] else filter (λ r. not (is_among r ended.now.rows)) self.old) }
    {
        if is_last {
            self.rows.clear();
            self.bound = 0;
            return;
        }
        self.rows.retain(|rid| !ended.holds(*rid));
        self.bound = bound_of(&self.rows);
    }
}
