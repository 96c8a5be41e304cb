//! A store under threads that write what they wait for.
ghost use Rattle.std.specs.Prelude.{◌≡◌};

use nsf::{
    Body, Connection, Error, Group, Key, KeyRange, LedClient, MemDisk, OpenError, Pair, Seat,
    Served, Waiting, serve_led,
};
use std::alloc::Global;
use std::sync::Wait;
use std::thread::Threads;

/// Puts a row with its key, and waits until the device has it. Then it puts one more, call by call, and looks at both
/// ends of the index.
#[derive(Drop)]
struct Put {
    alloc: Global,
    key: Key,
    done: Result<(), Error>,
}

// The first key of the index, which a row had before, and the last one, which each client puts.
const FIRST: &[u8] = b"ant";

const LAST: &[u8] = b"dog";

// Puts a row with another key in a transaction, which is taken back where the row isn't put.
fn put_one_more<B: Group, R: Wait, W: Waiting<B>>(
    connection: &Connection<'_, B, R, W>,
    seat: &mut Seat<B>,
) -> Result<(), Error>
    ensures { seat.new.number ≡ seat.old.number }
{
    let rt = connection.rt;
    let shared = connection.shared;
    let txn = shared.begin(rt, seat)?;
    let key = Key::new(LAST)?;
    let change = shared.insert_if_ready(rt, seat, txn, key, Body::new(b"")?)?;
    match change.rest {
        Some(error) => {
            shared.abort(rt, seat, txn)?;
            Err(error)
        }
        None => {
            connection.commit(seat, txn)?;
            Ok(())
        }
    }
}

// The first pair of the index.
fn first_pair<B: Group, R: Wait, W: Waiting<B>>(
    connection: &Connection<'_, B, R, W>,
    seat: &mut Seat<B>,
    alloc: Global,
) -> Result<Option<Pair>, Error>
    ensures { seat.new.number ≡ seat.old.number }
{
    let range = KeyRange::all();
    let page = connection
        .shared
        .scan(connection.rt, alloc, seat, &range, None, 1)?;
    Ok(page.pairs.first().copied())
}

// The last one.
fn last_pair<B: Group, R: Wait, W: Waiting<B>>(
    connection: &Connection<'_, B, R, W>,
    seat: &mut Seat<B>,
    alloc: Global,
) -> Result<Option<Pair>, Error>
    ensures { seat.new.number ≡ seat.old.number }
{
    let range = KeyRange::all();
    let page = connection
        .shared
        .scan_back(connection.rt, alloc, seat, &range, None, 1)?;
    Ok(page.pairs.first().copied())
}

// Whether the pair has this key.
fn has_key(pair: Option<Pair>, key: &[u8]) -> Result<bool, Error> {
    let key = Key::new(key)?;
    Ok(pair.is_some_and(|pair| pair.key == key))
}

// Looks at both ends of the index.
fn look<B: Group, R: Wait, W: Waiting<B>>(
    connection: &Connection<'_, B, R, W>,
    seat: &mut Seat<B>,
    alloc: Global,
) -> Result<(), Error>
    ensures { seat.new.number ≡ seat.old.number }
{
    let first = first_pair(connection, seat, alloc)?;
    let last = last_pair(connection, seat, alloc)?;
    if has_key(first, FIRST)? && has_key(last, LAST)? {
        Ok(())
    } else {
        Err(Error::NoSuchRow)
    }
}

// Puts the row, and then the other, and looks.
fn put_both<B: Group, R: Wait, W: Waiting<B>>(
    connection: &Connection<'_, B, R, W>,
    seat: &mut Seat<B>,
    alloc: Global,
    key: Key,
) -> Result<(), Error>
    ensures { seat.new.number ≡ seat.old.number }
{
    connection.put(seat, key, Body::new(b"")?)?;
    put_one_more(connection, seat)?;
    look(connection, seat, alloc)
}

impl LedClient for Put {
    fn work<B: Group, R: Wait, W: Waiting<B>>(
        &mut self,
        connection: &Connection<'_, B, R, W>,
        seat: &mut Seat<B>,
    ) {
        self.done = put_both(connection, seat, self.alloc, self.key);
    }
}

// A client for each key.
fn clients_of(alloc: Global, keys: &[&[u8]]) -> Result<Vec<Put>, Error> {
    let mut clients = Vec::new(alloc);
    for key in keys {
        let key = Key::new(key)?;
        clients.push(Put {
            alloc,
            key,
            done: Ok(()),
        })?;
    }
    Ok(clients)
}

// Why not all was put and written out, if so.
fn each_put<D>(served: &Served<Put, D>) -> Result<(), Error> {
    served.written?;
    for client in &served.clients {
        client.done?;
    }
    Ok(())
}

// Lets the clients work over the store on the disk.
fn serve_on<R: Threads + Wait + Sync>(
    rt: &R,
    alloc: Global,
    disk: MemDisk<Global>,
    clients: Vec<Put>,
) -> Result<Served<Put, MemDisk<Global>>, OpenError> {
    match serve_led(rt, alloc, disk, clients) {
        Ok(served) => Ok(served),
        Err((error, _)) => Err(error),
    }
}

/// Puts a row for each key, side by side, in the store on the disk.
pub fn put_led<R: Threads + Wait + Sync>(
    rt: &R,
    alloc: Global,
    disk: MemDisk<Global>,
    keys: &[&[u8]],
) -> Result<MemDisk<Global>, OpenError> {
    let clients = clients_of(alloc, keys)?;
    let served = serve_on(rt, alloc, disk, clients)?;
    each_put(&served)?;
    Ok(served.device)
}
