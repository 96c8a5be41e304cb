//! Commands.
use crate::byte_text::ByteText;
use crate::fate::Fate;
use records::{Rid, Txn};

/// One command of a script. `insert`, `delete` and `update` make the first step of a change, and
/// `step` makes each further one.
#[derive(Drop)]
pub enum Command {
    /// Begins a transaction: `begin`.
    Begin,
    /// Inserts a row: `insert <t> <key> <body>`.
    Insert {
        txn: Txn,
        key: ByteText,
        body: ByteText,
    },
    /// Deletes the row at a place: `delete <t> <rid>`.
    Delete {
        txn: Txn,
        rid: Rid,
    },
    /// Puts another row in the place of the one that is there: `update <t> <rid> <key> <body>`.
    Update {
        txn: Txn,
        rid: Rid,
        key: ByteText,
        body: ByteText,
    },
    /// Makes the next step of the change that a transaction began: `step <t>`.
    Step {
        txn: Txn,
    },
    /// Makes one step that takes a transaction's last change back: `undo <t>`.
    Undo {
        txn: Txn,
    },
    /// Ends a transaction of which no change is left: `end <t>`.
    End {
        txn: Txn,
    },
    /// Commits a transaction: `commit <t>`.
    Commit {
        txn: Txn,
    },
    /// Creates the index, which is then to be built: `create`.
    Create,
    /// Drops the index: `drop`.
    Drop,
    /// Makes as many steps of the builder: `build <count>`, or one step: `build`.
    Build {
        count: u32,
    },
    /// Makes as many steps of the cleaner: `clean <count>`, or one step: `clean`.
    Clean {
        count: u32,
    },
    /// Writes the log until every record made is synced: `flush`.
    Flush,
    /// Takes an image of the store and makes it current: `image`.
    Image,
    /// Crashes the device and restarts: `crash <fate>`.
    Crash {
        fate: Fate,
    },
    /// Asks for the row at a place: `get <rid>`.
    Get {
        rid: Rid,
    },
    /// Asks for the places of the rows with a key: `find <key>`.
    Find {
        key: ByteText,
    },
    /// Asks for all rows, entries and the life of the index: `dump`.
    Dump,
}
