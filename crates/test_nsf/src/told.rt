// What the plain program makes of days of requests and their replies.
use headline::{Answer, Day};
use model::{Life, RowMap, Write};
use nsf_core::BuildReply;
use records::{Action, IndexAction, Rid, Row, Txn};
use restart::{Event, Reply};
use std::alloc::{AllocError, Allocator, Global};

/// What days tell of a store that keeps the records up to a last one: its rows, how far the index is, and up to which
/// record all was told to be safe. Of changes the days ask for insertions and deletions alone.
#[derive(Drop)]
pub(crate) struct Told {
    pub(crate) rows: RowMap<Global>,
    pub(crate) life: Life,
    pub(crate) safe: u64,
    last: u64,
    // what the transactions of the day have written
    writes: Vec<(Txn, Write)>,
}

// What a record leaves: the writes of a transaction, or another life of the index.
#[derive(Clone, Copy)]
enum Item {
    Commit(Txn),
    OfIndex(IndexAction),
}

// What an insertion writes that was put at this place.
fn insertion_of(event: &Event, rid: Rid) -> Option<(Txn, Write)> {
    match event {
        Event::Insert { txn, key, body } => {
            let (key, body) = (*key, *body);
            let row = Some(Row { key, body });
            Some((*txn, Write { rid, row }))
        }
        _ => None,
    }
}

fn deletion_of(event: &Event) -> Option<(Txn, Write)> {
    match event {
        Event::Delete { txn, rid } => {
            let (rid, row) = (*rid, None);
            Some((*txn, Write { rid, row }))
        }
        _ => None,
    }
}

// What a request writes, and for which transaction.
fn write_of<A: Allocator>(event: &Event, reply: &Reply<A>) -> Option<(Txn, Write)> {
    match reply {
        Reply::Rid(rid) => insertion_of(event, *rid),
        Reply::Stepped => deletion_of(event),
        _ => None,
    }
}

// What the record leaves for which a ticket was given.
fn item_by(event: &Event) -> Option<Item> {
    match event {
        Event::Commit { txn } => Some(Item::Commit(*txn)),
        Event::Create => Some(Item::OfIndex(IndexAction::Create)),
        Event::Drop => Some(Item::OfIndex(IndexAction::Drop)),
        _ => None,
    }
}

// The number of the record that a request made, and what that leaves.
fn item_of<A: Allocator>(event: &Event, reply: &Reply<A>) -> Option<(u64, Item)> {
    match reply {
        Reply::Ticket(ticket) => Some((ticket.record.get(), item_by(event)?)),
        Reply::Built(BuildReply::Marked(pair, ticket)) => {
            let action = IndexAction::BuildCheckpoint { pair: *pair };
            Some((ticket.record.get(), Item::OfIndex(action)))
        }
        Reply::Built(BuildReply::Done(ticket)) => {
            Some((ticket.record.get(), Item::OfIndex(IndexAction::BuildDone)))
        }
        _ => None,
    }
}

// The replies that came before the store stopped.
fn seen<A: Allocator>(within: bool, replies: &[Reply<A>]) -> &[Reply<A>] {
    match replies.split_last() {
        Some((_, before)) if within => before,
        _ => replies,
    }
}

// Up to which record these tell that all is safe.
fn acknowledged<A: Allocator>(replies: &[Reply<A>]) -> u64 {
    let mut safe: u64 = 0;
    for reply in replies {
        match reply {
            Reply::Horizon(number) | Reply::Flipped(number) => safe = safe.max(*number),
            _ => {}
        }
    }
    safe
}

// Leaves what the transaction has written.
fn commit(rows: &mut RowMap<Global>, writes: &[(Txn, Write)], txn: Txn) -> Result<(), AllocError> {
    for (writer, write) in writes {
        if *writer == txn {
            rows.set(write.rid, write.row)?;
        }
    }
    Ok(())
}

impl Told {
    /// Of a store that keeps the records up to this one, before any day.
    pub(crate) fn new(alloc: Global, last: u64) -> Told {
        Told {
            rows: RowMap::new(alloc),
            life: Life::Absent,
            safe: 0,
            last,
            writes: Vec::new(alloc),
        }
    }

    // Takes what the reply to a request tells. What a record leaves that was lost is lost too.
    fn take<A: Allocator>(&mut self, event: &Event, reply: &Reply<A>) -> Result<(), AllocError> {
        if let Some(write) = write_of(event, reply) {
            self.writes.push(write)?;
        }
        match item_of(event, reply) {
            Some((number, item)) if number <= self.last => self.redo(item),
            _ => Ok(()),
        }
    }

    fn redo(&mut self, item: Item) -> Result<(), AllocError> {
        match item {
            Item::Commit(txn) => commit(&mut self.rows, &self.writes, txn),
            Item::OfIndex(action) => {
                self.life = self.life.redo(&Action::OfIndex { action });
                Ok(())
            }
        }
    }

    // Takes a day. No transaction is active as it begins.
    fn take_day<A: Allocator>(
        &mut self,
        day: &Day<A>,
        replies: &[Reply<A>],
    ) -> Result<(), AllocError> {
        self.writes.clear();
        self.safe = self.safe.max(acknowledged(seen(day.within, replies)));
        for (event, reply) in day.requests.iter().zip(replies) {
            self.take(event, reply)?;
        }
        Ok(())
    }

    /// Takes days, one after another. Those on which nothing was served tell nothing.
    pub(crate) fn take_days<A: Allocator>(
        &mut self,
        days: &[Day<A>],
        answers: &[Answer<A>],
    ) -> Result<(), AllocError> {
        for (day, answer) in days.iter().zip(answers) {
            if let Ok(replies) = answer {
                self.take_day(day, replies)?;
            }
        }
        Ok(())
    }
}
