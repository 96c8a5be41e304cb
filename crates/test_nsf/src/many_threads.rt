//! A store under many threads.
ghost use Rattle.std.specs.Prelude.{◌≡◌};

use nsf::{
    Body, BuilderEnd, Client, Error, Group, Key, MemDisk, OpenError, Seat, Served, Shared, Ticket,
    Txn, serve,
};
use std::alloc::Global;
use std::sync::Wait;
use std::thread::Threads;

/// Puts a row with its key, waits until the device has it, and reads a mark. Then it puts one more, and doesn't wait.
#[derive(Drop)]
pub struct Put {
    pub key: Key,
    pub done: Result<(), Error>,
}

impl Put {
    // The row is put and committed in the transaction, or it is told why it isn't.
    fn put_in<B: Group, R: Wait>(
        rt: &R,
        shared: &Shared<B>,
        seat: &mut Seat<B>,
        txn: Txn,
        key: Key,
    ) -> Result<Ticket, Error>
        ensures { seat.new.number ≡ seat.old.number }
    {
        let change = shared.insert_if_ready(rt, seat, txn, key, Body::new(b"")?)?;
        match change.rest {
            Some(error) => Err(error),
            None => shared.commit_if_ready(rt, seat, txn),
        }
    }

    // The same in a transaction of its own, which is taken back where it isn't put.
    pub(crate) fn put_one<B: Group, R: Wait>(
        rt: &R,
        shared: &Shared<B>,
        seat: &mut Seat<B>,
        key: Key,
    ) -> Result<Ticket, Error>
        ensures { seat.new.number ≡ seat.old.number }
    {
        let txn = shared.begin(rt, seat)?;
        match Put::put_in(rt, shared, seat, txn, key) {
            Ok(ticket) => Ok(ticket),
            Err(error) => {
                shared.abort(rt, seat, txn)?;
                Err(error)
            }
        }
    }

    /// Puts the row, and waits until the device has it.
    pub fn put<B: Group, R: Wait>(
        &self,
        rt: &R,
        shared: &Shared<B>,
        seat: &mut Seat<B>,
    ) -> Result<(), Error>
        ensures { seat.new.number ≡ seat.old.number }
    {
        let ticket = Put::put_one(rt, shared, seat, self.key)?;
        shared.await_ack(rt, seat, ticket)?;
        Ok(())
    }

    // Puts the row, reads a mark, which a disk in memory has, and puts one that is still under way as the client ends.
    fn put_both<B: Group, R: Wait>(
        &self,
        rt: &R,
        shared: &Shared<B>,
        seat: &mut Seat<B>,
    ) -> Result<(), Error>
        ensures { seat.new.number ≡ seat.old.number }
    {
        self.put(rt, shared, seat)?;
        shared.mark(seat).ok_or(Error::NoSuchTxn)?;
        Put::put_one(rt, shared, seat, Key::new(b"dog")?)?;
        Ok(())
    }
}

impl Client for Put {
    fn work<B: Group, R: Wait>(
        &mut self,
        rt: &R,
        shared: &Shared<B>,
        seat: &mut Seat<B>,
        _builder: &BuilderEnd<B>,
    ) {
        self.done = self.put_both(rt, shared, seat);
    }
}

/// A client for each key.
pub fn clients_of(alloc: Global, keys: &[&[u8]]) -> Result<Vec<Put>, Error> {
    let mut clients = Vec::new(alloc);
    for key in keys {
        let key = Key::new(key)?;
        clients.push(Put { key, done: Ok(()) })?;
    }
    Ok(clients)
}

// Why not all was put and written out, if so.
fn each_put<D>(served: &Served<Put, D>) -> Result<(), Error> {
    served.written?;
    for client in &served.clients {
        client.done?;
    }
    Ok(())
}

/// Lets the clients work over the store on the disk: the one call of `serve`, which promises much.
pub fn serve_on<C: Client + Send + Drop, R: Threads + Wait + Sync>(
    rt: &R,
    alloc: Global,
    disk: MemDisk<Global>,
    clients: Vec<C>,
) -> Result<Served<C, MemDisk<Global>>, OpenError> {
    match serve(rt, alloc, disk, clients) {
        Ok(served) => Ok(served),
        Err((error, _)) => Err(error),
    }
}

/// Puts two rows side by side in the store on the disk.
pub fn put_two<R: Threads + Wait + Sync>(
    rt: &R,
    alloc: Global,
    disk: MemDisk<Global>,
) -> Result<MemDisk<Global>, OpenError> {
    let clients = clients_of(alloc, &[b"bee", b"cat"])?;
    let served = serve_on(rt, alloc, disk, clients)?;
    each_put(&served)?;
    Ok(served.device)
}
