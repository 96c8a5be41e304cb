//! Changes of rows.
ghost use Rattle.std.specs.Prelude.{◌≡◌, ◌⊎◌, IfErr, OnErr, OnOk, true, false, ℕ};
ghost use Rattle.record_values.specs.declared.error.Error.{Error};
ghost use Rattle.nsf_index_c.specs.Applying.{Applies};
ghost use Rattle.nsf_index_c.specs.Changing.{AsksPrepared, IsDone, IsMarkOf, IsNotPrepared, IsPairless, IsPutOf};
ghost use Rattle.nsf_index_c.specs.Changing.{IsTooMuch, Makes, MakesAsked};
ghost use Rattle.nsf_index_c.specs.Pairs.{Asks, IsNoChange};
ghost use Rattle.nsf_index_c.specs.Handles.{IsNotServed, IsServed, Serves};

use crate::change::Change;
use crate::handle::Handle;
use crate::held::{Held, note_of};
use crate::numbers::{BAD_PAIR, NOT_OPEN, NOT_REOPENED, OK, status_of};
use crate::pair::{ChangeOfC, PairOfC};
use record_values::{Error, Mark, Pair};
use std::alloc::Global;

impl Held {
    // Prepares a change, and leaves its notes.
    fn prepare_pairs(&mut self, old: &Option<Pair>, new: &Option<Pair>) -> Result<(), Error>
        ensures ok { OnOk result (IsDone (Change.Prepare old.now new.now) self.old self.new) }
        ensures refused { IfErr result (λ e. (e ≡ Error.NoMemory)
            ⊎ ((e ≡ Error.IndexFull) × IsTooMuch self.old.index (Change.Prepare old.now new.now))) }
        ensures unchanged { OnErr result (self.new ≡ self.old) }
    {
        self.notes.reserve(2)?;
        self.index.prepare(old.as_ref(), new.as_ref())?;
        if let Some(pair) = old {
            self.notes.push_reserved(note_of(pair, Some(Mark::Marked)));
        }
        if let Some(pair) = new {
            self.notes.push_reserved(note_of(pair, Some(Mark::Marked)));
        }
        Ok(())
    }

    // Puts a pair, and leaves its note.
    fn put_pair(&mut self, pair: &Pair) -> Result<(), Error>
        ensures ok { OnOk result (IsDone (Change.Put pair.now) self.old self.new) }
        ensures refused { IfErr result (λ e. (e ≡ Error.NoMemory)
            ⊎ ((e ≡ Error.IndexFull) × IsTooMuch self.old.index (Change.Put pair.now))) }
        ensures unchanged { OnErr result (self.new ≡ self.old) }
    {
        self.notes.reserve(1)?;
        self.index.put(pair)?;
        self.notes.push_reserved(note_of(pair, Some(Mark::Live)));
        Ok(())
    }

    // Marks a pair, and leaves its note.
    fn mark_pair(&mut self, pair: &Pair) -> Result<(), Error>
        ensures ok { OnOk result (IsDone (Change.Mark pair.now) self.old self.new) }
        ensures refused { IfErr result (λ e. (e ≡ Error.NoMemory)
            ⊎ ((e ≡ Error.IndexFull) × IsTooMuch self.old.index (Change.Mark pair.now))) }
        ensures unchanged { OnErr result (self.new ≡ self.old) }
    {
        self.notes.reserve(1)?;
        self.index.mark(pair)?;
        self.notes.push_reserved(note_of(pair, Some(Mark::Marked)));
        Ok(())
    }

    // Makes a change, and leaves its notes.
    fn make(&mut self, asked: &Change) -> Result<(), Error>
        ensures ok { OnOk result (IsDone asked.now self.old self.new) }
        ensures refused { IfErr result (λ e. (e ≡ Error.NoMemory)
            ⊎ ((e ≡ Error.IndexFull) × IsTooMuch self.old.index asked.now)) }
        ensures unchanged { OnErr result (self.new ≡ self.old) }
    {
        match asked {
            Change::Prepare(old, new) => self.prepare_pairs(old, new),
            Change::Put(pair) => self.put_pair(pair),
            Change::Mark(pair) => self.mark_pair(pair),
        }
    }

    // Makes a change, if the index needs no reopening.
    fn make_open(&mut self, change: &Change) -> u32
        ensures { Makes change.now result self.old self.new }
    {
        if self.is_redone {
            return NOT_REOPENED;
        }
        status_of(self.make(change))
    }

    fn prepare(&mut self, asked: &ChangeOfC) -> u32
        ensures { MakesAsked (AsksPrepared asked.now) (IsNotPrepared asked.now) result self.old self.new }
    {
        match asked.prepared() {
            Ok(change) => self.make_open(&change),
            Err(number) => number,
        }
    }

    fn put(&mut self, pair: &PairOfC) -> u32
        ensures { MakesAsked (IsPutOf pair.now) (IsPairless pair.now) result self.old self.new }
    {
        match pair.pair() {
            Some(pair) => self.make_open(&Change::Put(pair)),
            None => BAD_PAIR,
        }
    }

    fn mark(&mut self, pair: &PairOfC) -> u32
        ensures { MakesAsked (IsMarkOf pair.now) (IsPairless pair.now) result self.old self.new }
    {
        match pair.pair() {
            Some(pair) => self.make_open(&Change::Mark(pair)),
            None => BAD_PAIR,
        }
    }

    fn make_asked(&mut self, asked: &ChangeOfC) -> u32
        ensures { MakesAsked (Asks asked.now) (IsNoChange asked.now) result self.old self.new }
    {
        match asked.change() {
            Ok(change) => self.make_open(&change),
            Err(number) => number,
        }
    }

    // Makes these changes in order, up to the first that is refused, and counts those made.
    fn apply(&mut self, changes: &[ChangeOfC], made: &mut usize) -> u32
        ensures { Applies changes.now result made.new self.old self.new }
    {
        *made = 0;
        for at in 0..changes.len() {
            let status = self.make_asked(&changes[at]);
            if status != OK {
                return status;
            }
            *made = at + 1;
        }
        OK
    }
}

/// Prepares a change: marks the pair that the row has, and the one that it is to have.
#[unsafe(no_mangle)]
pub extern "C" fn nsf_index_prepare(alloc: Global, handle: &mut Handle, change: &ChangeOfC) -> u32
    ensures { Serves (MakesAsked (AsksPrepared change.now) (IsNotPrepared change.now) result) result handle.old
        handle.new }
{
    let Some(mut held) = handle.take(alloc) else {
        return NOT_OPEN;
    };
    let status = held.prepare(change);
    handle.put(held);
    status
}

/// Makes a pair visible: its row has it.
#[unsafe(no_mangle)]
pub extern "C" fn nsf_index_put(alloc: Global, handle: &mut Handle, pair: &PairOfC) -> u32
    ensures { Serves (MakesAsked (IsPutOf pair.now) (IsPairless pair.now) result) result handle.old handle.new }
{
    let Some(mut held) = handle.take(alloc) else {
        return NOT_OPEN;
    };
    let status = held.put(pair);
    handle.put(held);
    status
}

/// Marks a pair.
#[unsafe(no_mangle)]
pub extern "C" fn nsf_index_mark(alloc: Global, handle: &mut Handle, pair: &PairOfC) -> u32
    ensures { Serves (MakesAsked (IsMarkOf pair.now) (IsPairless pair.now) result) result handle.old handle.new }
{
    let Some(mut held) = handle.take(alloc) else {
        return NOT_OPEN;
    };
    let status = held.mark(pair);
    handle.put(held);
    status
}

/// Makes many changes in one call, in order, and tells how many it made: up to the first that is refused.
#[unsafe(no_mangle)]
pub extern "C" fn nsf_index_apply(
    alloc: Global,
    handle: &mut Handle,
    changes: &[ChangeOfC],
    made: &mut usize,
) -> u32
    ensures { (IsNotServed result handle.old handle.new × (made.new ≡ 0))
        ⊎ IsServed (Applies changes.now result made.new) handle.old handle.new }
{
    *made = 0;
    let Some(mut held) = handle.take(alloc) else {
        return NOT_OPEN;
    };
    let status = held.apply(changes, made);
    handle.put(held);
    status
}
