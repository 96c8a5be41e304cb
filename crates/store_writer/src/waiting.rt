//! Records that wait, of which the first ones are taken again and again.
ghost use Rattle.std.specs.Prelude.{◌≡◌, ◌≤◌, ◌++◌, if◌then◌else◌, [], length, drop, is_ok};

use records::Record;
use std::alloc::{AllocError, Allocator};
use std::marker::Model;

/// The records that wait, in order.
///
/// Those that were taken stay in front of them until they are more. So no more records are moved than were taken.
#[derive(Drop)]
pub(crate) struct Waiting<A: Allocator> {
    records: Vec<Record, A>,
    // How many at the front were taken.
    taken: usize,
}

impl<A: Allocator> Model for Waiting<A> {
    ghost use Rattle.std.specs.Prelude.{List, length, drop, ◌≤◌};
    ghost use Rattle.records.specs.RecordValue.{RecordValue};

    ghost Value = { List RecordValue };

    ghost view = { λ w. drop w.taken w.records.items };

    ghost invariant = { λ w. w.taken ≤ length w.records.items };
}

impl<A: Allocator + Copy> Waiting<A> {
    /// None waits.
    pub(crate) fn new(alloc: A) -> Self
        ensures { result ≡ [] }
    {
        Waiting {
            records: Vec::new(alloc),
            taken: 0,
        }
    }

    /// Where they have their memory.
    pub(crate) fn allocator(&self) -> A {
        *self.records.allocator()
    }

    /// All of them.
    pub(crate) fn as_slice(&self) -> &[Record]
        ensures { result.now ≡ self.now }
    {
        &self.records[self.taken..]
    }

    /// How many there are.
    pub(crate) fn len(&self) -> usize
        ensures { result ≡ length self.now }
    {
        self.records.len() - self.taken
    }

    /// Puts these behind them, and leaves none of them. An `Err` is for want of memory, and changes nothing.
    pub(crate) fn append(&mut self, more: &mut Vec<Record, A>) -> Result<(), AllocError>
        ensures items { self.new ≡ (if is_ok result then self.old ++ more.old.items else self.old) }
        ensures other_items { more.new.items ≡ (if is_ok result then [] else more.old.items) }
    {
        self.records.append(more)
    }

    /// Takes so many at the front.
    pub(crate) fn take_first(&mut self, count: usize)
        requires { count ≤ length self.old }
        ensures { self.new ≡ drop count self.old }
    {
        self.taken += count;
        if self.taken <= self.records.len() / 2 {
            return;
        }
        self.records.drain(..self.taken);
        self.taken = 0;
    }
}
