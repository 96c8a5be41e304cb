//! What a command asks of the store.
ghost use Rattle.std.specs.Prelude.{◌≡◌};
ghost use Rattle.program_commands.specs.Requests.{fate_of, with_key, with_row};

use program_script::{ByteText, Command};
use records::{Body, Error, Key, Rid, Txn};
use restart::Event;
use sector_device::Fate;

/// What a command asks for.
#[derive(Clone, Copy)]
pub enum Request {
    /// One event of the engine.
    Event(Event),
    /// So many steps of the builder, or fewer where one is the last.
    Build(u32),
    /// So many steps of the cleaner, or fewer where one is refused.
    Clean(u32),
    /// As many flushes as it takes until every record made is synced.
    Flush,
    /// An image of the store, taken and made current.
    Image,
    /// A crash of the device with this fate for every unsynced sector, and a restart.
    Crash(Fate),
    /// Every row, every entry, and how far the index is.
    Dump,
}

impl Request {
    ghost use Rattle.program_commands.specs.Requests.{request_of};

    /// What the command asks for. `KeyTooLong`, then `BodyTooLong`, where it gives too many bytes.
    pub fn of(command: &Command) -> Result<Self, Error>
        ensures { result ≡ request_of command.now }
    {
        match command {
            Command::Begin => Ok(Request::Event(Event::Begin)),
            Command::Insert { txn, key, body } => insertion(*txn, key, body),
            Command::Delete { txn, rid } => Ok(Request::Event(Event::Delete {
                txn: *txn,
                rid: *rid,
            })),
            Command::Update {
                txn,
                rid,
                key,
                body,
            } => update(*txn, *rid, key, body),
            Command::Step { txn } => Ok(Request::Event(Event::Step { txn: *txn })),
            Command::Undo { txn } => Ok(Request::Event(Event::Undo { txn: *txn })),
            Command::End { txn } => Ok(Request::Event(Event::End { txn: *txn })),
            Command::Commit { txn } => Ok(Request::Event(Event::Commit { txn: *txn })),
            Command::Create => Ok(Request::Event(Event::Create)),
            Command::Drop => Ok(Request::Event(Event::Drop)),
            Command::Build { count } => Ok(Request::Build(*count)),
            Command::Clean { count } => Ok(Request::Clean(*count)),
            Command::Flush => Ok(Request::Flush),
            Command::Image => Ok(Request::Image),
            Command::Crash { fate } => Ok(Request::Crash(device_fate(*fate))),
            Command::Get { rid } => Ok(Request::Event(Event::Get { rid: *rid })),
            Command::Find { key } => search(key),
            Command::Dump => Ok(Request::Dump),
        }
    }
}

// An insertion of a row with this key and body.
fn insertion(txn: Txn, key: &ByteText, body: &ByteText) -> Result<Request, Error>
    ensures { result ≡ with_row key.now body.now (Request.Event (Event.Insert txn key.now body.now)) }
{
    let key = Key::new(key.as_slice())?;
    let body = Body::new(body.as_slice())?;
    Ok(Request::Event(Event::Insert { txn, key, body }))
}

// An update to a row with this key and body.
fn update(txn: Txn, rid: Rid, key: &ByteText, body: &ByteText) -> Result<Request, Error>
    ensures { result ≡ with_row key.now body.now (Request.Event (Event.Update txn rid key.now body.now)) }
{
    let key = Key::new(key.as_slice())?;
    let body = Body::new(body.as_slice())?;
    Ok(Request::Event(Event::Update {
        txn,
        rid,
        key,
        body,
    }))
}

// A search for the rows with this key.
fn search(key: &ByteText) -> Result<Request, Error>
    ensures { result ≡ with_key key.now (Request.Event (Event.Find key.now)) }
{
    let key = Key::new(key.as_slice())?;
    Ok(Request::Event(Event::Find { key }))
}

// The device's fate of this name.
fn device_fate(fate: program_script::Fate) -> Fate
    ensures { result ≡ fate_of fate }
{
    match fate {
        program_script::Fate::Old => Fate::Old,
        program_script::Fate::New => Fate::New,
        program_script::Fate::Zero => Fate::Zero,
        program_script::Fate::Gate => Fate::Gate,
        program_script::Fate::Junk => Fate::Junk,
    }
}
