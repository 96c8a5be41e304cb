//! Rows are loaded into a store.
ghost use Rattle.std.specs.Prelude.{◌≡◌, false, None, IfErr, IfOk, OnOk};
ghost use Rattle.restart.specs.declared.event.Event.TheVariants.{Begin};
ghost use Rattle.program_commands.specs.Store.{Serves};
ghost use Rattle.program_rows.specs.Loaded.{Denies, FlushesShort, FlushesTo, Grants, GrantsAll, IsNotCommitted};
ghost use Rattle.program_rows.specs.Loaded.{IsSafelyCommitted, RefusesOne, insertion, is_refusal, is_txn, refusal_in};
ghost use Rattle.program_rows.specs.Reading.{IsPlain, reader_of};

use crate::error::RowsError;
use crate::reading::RowReader;
use crate::rows::RowError;
use program_commands::Store;
use records::{Error, Row, Txn};
use restart::{Event, Reply};
use sector_device::Device;
use std::alloc::Global;
use std::io::Read;

// How many rows a transaction has at most.
const ROWS: u64 = 64;

/// What came of a record.
#[derive(Clone, Copy)]
pub enum Taken {
    /// Its row is inserted by the transaction that is open.
    Row,
    /// The same, and that transaction is committed, and safe.
    Batch,
    /// It has no row.
    Refused(RowError),
    /// There is none any more, and all rows are safe.
    End,
}

// The refusal that a reply tells, if it is one.
fn granted(reply: Reply<Global>) -> Result<(), Error>
    ensures granted { OnOk result (is_refusal reply ≡ false) }
    ensures refused { IfErr result (λ e. reply ≡ Reply.Refused e) }
{
    match reply {
        Reply::Refused(error) => Err(error),
        _ => Ok(()),
    }
}

// Why a reply isn't the one that is wanted.
fn refusal_in(reply: Reply<Global>) -> Error
    ensures { result ≡ refusal_in reply }
{
    match reply {
        Reply::Refused(error) => error,
        _ => Error::NoSuchTxn,
    }
}

// Serves an event that is to be granted.
fn grant<D: Device>(store: &mut Store<D>, event: Event) -> Result<(), Error>
    ensures granted { OnOk result (Grants D.past_of D.failures event store.old store.new) }
    ensures refused { IfErr result (λ e. Serves D.past_of D.failures event (Reply.Refused e) store.old store.new) }
{
    granted(store.serve(event))
}

// Begins a transaction.
fn begin<D: Device>(store: &mut Store<D>) -> Result<Txn, Error>
    ensures begun { IfOk result (λ txn. Serves D.past_of D.failures Begin (Reply.Txn txn) store.old store.new) }
    ensures refused { IfErr result (λ e. Denies D.past_of D.failures is_txn Begin e store.old store.new) }
{
    match store.serve(Event::Begin) {
        Reply::Txn(txn) => Ok(txn),
        reply => Err(refusal_in(reply)),
    }
}

// Inserts a row, with the step that an index asks for; the next one finds that none is owed.
fn insert<D: Device>(store: &mut Store<D>, txn: Txn, row: &Row) -> Result<(), Error>
    ensures inserted { OnOk result (GrantsAll D.past_of D.failures (insertion txn row.now) store.old store.new) }
    ensures refused { IfErr result (λ e. RefusesOne D.past_of D.failures (insertion txn row.now) e
        store.old store.new) }
{
    grant(
        store,
        Event::Insert {
            txn,
            key: row.key,
            body: row.body,
        },
    )?;
    grant(store, Event::Step { txn })?;
    grant(store, Event::Step { txn })
}

// Flushes, so that this record is safe.
fn flush_to<D: Device>(store: &mut Store<D>, number: u64) -> Result<(), Error>
    ensures safe { OnOk result (FlushesTo D.past_of D.failures number store.old store.new) }
    ensures refused { IfErr result (λ e. FlushesShort D.past_of D.failures number e store.old store.new) }
{
    granted(store.flush())?;
    if store.horizon() < number {
        return Err(Error::DeviceFailed);
    }
    Ok(())
}

// Commits the transaction, and flushes, so that it is safe. A transaction that owes a step isn't committed.
fn commit_safely<D: Device>(store: &mut Store<D>, txn: Txn) -> Result<(), Error>
    ensures safe { OnOk result (IsSafelyCommitted D.past_of D.failures txn store.old store.new) }
    ensures refused { IfErr result (λ e. IsNotCommitted D.past_of D.failures txn e store.old store.new) }
{
    match store.serve(Event::Commit { txn }) {
        Reply::Ticket(ticket) => flush_to(store, ticket.record.get()),
        reply => Err(refusal_in(reply)),
    }
}

/// A store into which rows are loaded, 64 a transaction, and what came of them.
#[derive(Drop)]
pub struct Loader<D: Device> {
    store: Store<D>,
    // The transaction that is open, how many rows it has, and the line of the last record before them.
    txn: Option<Txn>,
    rows: u64,
    behind: u64,
    // How many rows are safe.
    loaded: u64,
    // How many records have no row.
    refused: u64,
    // The line of the last record that was dealt with.
    line: u64,
}

impl<D: Device> Loader<D> {
    ghost use Rattle.program_rows.specs.Loaded.{Adds, DealsWith, Inserts, IsCounted, IsNotAdded, IsNotCounted};
    ghost use Rattle.program_rows.specs.Loaded.{IsNotDealtWith, IsNotOpen, IsNotPut, IsNotTaken, IsOpen};
    ghost use Rattle.program_rows.specs.Loaded.{IsRefusedNext, Takes, TakesNext, loaded_in, open_txn, refused_in};
    ghost use Rattle.program_rows.specs.Loaded.{safe_line, store_in, with_refusal};

    /// A store into which nothing is loaded yet; the rows stand behind this line.
    pub fn new(store: Store<D>, line: u64) -> Self
        ensures store { store_in result ≡ store }
        ensures closed { open_txn result ≡ None }
        ensures none { (loaded_in result ≡ 0) × (refused_in result ≡ 0) }
        ensures line { safe_line result ≡ line }
    {
        Loader {
            store,
            txn: None,
            rows: 0,
            behind: line,
            loaded: 0,
            refused: 0,
            line,
        }
    }

    /// The store, to be looked at.
    pub fn store(&self) -> &Store<D>
        ensures { result.now ≡ store_in self.now }
    {
        &self.store
    }

    /// The store. What isn't committed is let go.
    pub fn into_store(self) -> Store<D>
        ensures { result ≡ store_in self }
    {
        self.store
    }

    /// How many rows are loaded, which are safe.
    pub fn loaded(&self) -> u64
        ensures { result ≡ loaded_in self.now }
    {
        self.loaded
    }

    /// How many records had no row.
    pub fn refused(&self) -> u64
        ensures { result ≡ refused_in self.now }
    {
        self.refused
    }

    /// The line up to which each record is dealt with: its row is safe, or it has none.
    pub fn line(&self) -> u64
        ensures { result ≡ safe_line self.now }
    {
        match self.txn {
            Some(_) => self.behind,
            None => self.line,
        }
    }

    // The transaction that is open, or a new one.
    fn open_txn(&mut self) -> Result<Txn, Error>
        ensures opened { IfOk result (λ txn. IsOpen D.past_of D.failures txn self.old self.new) }
        ensures refused { IfErr result (λ e. IsNotOpen D.past_of D.failures e self.old self.new) }
    {
        if let Some(txn) = self.txn {
            return Ok(txn);
        }
        let txn = begin(&mut self.store)?;
        self.txn = Some(txn);
        self.rows = 0;
        self.behind = self.line;
        Ok(txn)
    }

    /// Commits the rows of the transaction that is open, if one is, and flushes. They are counted once they are safe
    /// (`safe`), and else nothing of the loader changes but its store (`refused`).
    pub fn commit(&mut self) -> Result<(), Error>
        ensures safe { OnOk result (IsCounted D.past_of D.failures self.old self.new) }
        ensures refused { IfErr result (λ e. IsNotCounted D.past_of D.failures e self.old self.new) }
    {
        let Some(txn) = self.txn else {
            return Ok(());
        };
        commit_safely(&mut self.store, txn)?;
        self.txn = None;
        self.loaded = self.loaded.saturating_add(self.rows);
        Ok(())
    }

    // Inserts a row by the transaction that is open, or by a new one.
    fn put(&mut self, row: &Row) -> Result<(), Error>
        ensures inserted { OnOk result (Inserts D.past_of D.failures row.now self.old self.new) }
        ensures refused { IfErr result (λ e. IsNotPut D.past_of D.failures row.now e self.old self.new) }
    {
        let txn = self.open_txn()?;
        insert(&mut self.store, txn, row)?;
        self.rows = self.rows.saturating_add(1);
        Ok(())
    }

    // Loads a row. A transaction that has as many as it may is committed.
    fn add(&mut self, row: &Row) -> Result<Taken, Error>
        ensures added { IfOk result (λ t. Adds D.past_of D.failures row.now t self.old self.new) }
        ensures refused { IfErr result (λ e. IsNotAdded D.past_of D.failures row.now e self.old self.new) }
    {
        self.put(row)?;
        if self.rows < ROWS {
            return Ok(Taken::Row);
        }
        self.commit()?;
        Ok(Taken::Batch)
    }

    // Counts a record that has no row.
    fn refuse(&mut self, error: RowError) -> Taken
        ensures taken { result ≡ Taken.Refused error }
        ensures counted { self.new ≡ with_refusal self.old }
    {
        self.refused = self.refused.saturating_add(1);
        Taken::Refused(error)
    }

    // Loads what a record gave.
    fn deal_with(&mut self, found: Result<Row, RowError>) -> Result<Taken, Error>
        ensures taken { IfOk result (λ t. DealsWith D.past_of D.failures found t self.old self.new) }
        ensures refused { IfErr result (λ e. IsNotDealtWith D.past_of D.failures found e self.old self.new) }
    {
        match found {
            Ok(row) => self.add(&row),
            Err(error) => Ok(self.refuse(error)),
        }
    }

    // Loads what the next record gave, which begins in this line. Where there is none, commits.
    fn take_found(
        &mut self,
        found: Option<Result<Row, RowError>>,
        line: u64,
    ) -> Result<Taken, Error>
        ensures taken { IfOk result (λ t. Takes D.past_of D.failures found line t self.old self.new) }
        ensures refused { IfErr result (λ e. IsNotTaken D.past_of D.failures found e self.old self.new) }
    {
        let Some(found) = found else {
            self.commit()?;
            return Ok(Taken::End);
        };
        let taken = self.deal_with(found)?;
        self.line = line;
        Ok(taken)
    }

    /// Loads the row of the next record of the text: just that row is inserted (`taken`). Behind the last one the rows
    /// are committed that aren't yet.
    ///
    /// The error is the text's, and then nothing is done; or a refusal of the store, and then none of the rows that
    /// aren't safe yet is counted (`refused`).
    pub fn take<R: Read + Drop>(&mut self, rows: &mut RowReader<R>) -> Result<Taken, RowsError>
        ensures taken { IfOk result (λ t. IsPlain (reader_of rows.old)
            → TakesNext D.past_of D.failures R.remaining t rows.old rows.new self.old self.new) }
        ensures refused { IfErr result (λ e. IsPlain (reader_of rows.old)
            → IsRefusedNext D.past_of D.failures R.remaining e rows.old rows.new self.old self.new) }
    {
        let found = match rows.next_row() {
            Ok(found) => found,
            Err(error) => return Err(RowsError::Text(error)),
        };
        match self.take_found(found, rows.line()) {
            Ok(taken) => Ok(taken),
            Err(error) => Err(RowsError::Store(error)),
        }
    }
}
