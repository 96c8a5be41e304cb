//! The numbers of what is asked and of what is told.

/// What is asked: begin a transaction.
pub const BEGIN: u32 = 1;
/// Insert a row.
pub const INSERT: u32 = 2;
/// Delete the row at a place.
pub const DELETE: u32 = 3;
/// Put another row in place of the row at a place.
pub const UPDATE: u32 = 4;
/// Make the next step that a transaction owes.
pub const STEP: u32 = 5;
/// Make a step of taking a transaction's newest change back.
pub const UNDO: u32 = 6;
/// End a transaction that has no change left.
pub const END: u32 = 7;
/// Commit a transaction.
pub const COMMIT: u32 = 8;
/// Create the index.
pub const CREATE: u32 = 9;
/// Make a step of the builder.
pub const BUILD: u32 = 10;
/// Make a step of the cleaner.
pub const CLEAN: u32 = 11;
/// Flush one group of records.
pub const FLUSH: u32 = 12;
/// Take one step of an image.
pub const COPY: u32 = 13;
/// Tell the row at a place.
pub const GET: u32 = 14;
/// Tell the places of the rows with a key.
pub const FIND: u32 = 15;
/// Tell how far the index is.
pub const LIFE: u32 = 16;
/// Drop the index.
pub const DROP: u32 = 17;

/// The number of the refusal of a kind that is none of these.
pub const NO_SUCH_EVENT: u32 = 24;

/// What is told: a refusal. Its number is the call's result; `number` is the damaged sector.
pub const REFUSED: u32 = 0;
/// The number of the new transaction.
pub const TXN: u32 = 1;
/// Where the row is put.
pub const RID: u32 = 2;
/// A step of a change was made.
pub const STEPPED: u32 = 3;
/// A step of taking a change back was made.
pub const UNDONE: u32 = 4;
/// No change was left to take back.
pub const EMPTY: u32 = 5;
/// The transaction is over, and nothing of it was committed.
pub const ENDED: u32 = 6;
/// The record of the commit, of the creation, or of the dropping.
pub const TICKET: u32 = 7;
/// The builder took the pairs of a page's rows.
pub const SCANNED: u32 = 8;
/// The pair had no entry, and has a live one now.
pub const PLACED: u32 = 9;
/// The pair had an entry, which stays as it was.
pub const REJECTED: u32 = 10;
/// The builder made a checkpoint of the pair attempted last.
pub const MARKED: u32 = 11;
/// The builder completed the index.
pub const DONE: u32 = 12;
/// The index was complete before.
pub const IDLE: u32 = 13;
/// The cleaner took the marked entry of a pair out.
pub const CLEANED: u32 = 14;
/// The cleaner left the entry of a pair.
pub const KEPT: u32 = 15;
/// The cleaner was at the end, and begins anew.
pub const WRAPPED: u32 = 16;
/// All records up to the number are in the log, and synced.
pub const HORIZON: u32 = 17;
/// Every slot of the log is open, and a record waits.
pub const LOG_FULL: u32 = 18;
/// A piece of an image was taken.
pub const COPIED: u32 = 19;
/// The image is current, and all records up to the number are synced.
pub const FLIPPED: u32 = 20;
/// The image was given up, and is to be taken as a whole.
pub const AGAIN: u32 = 21;
/// The row there.
pub const ROW: u32 = 22;
/// No row is there.
pub const NO_ROW: u32 = 23;
/// How many rows have the key.
pub const FOUND: u32 = 24;
/// There is no index.
pub const ABSENT: u32 = 25;
/// The index is being built, and no pair is checkpointed.
pub const BUILDING: u32 = 26;
/// The index is being built, and the pair is the last checkpointed.
pub const BUILDING_AT: u32 = 27;
/// The index is complete.
pub const COMPLETE: u32 = 28;
/// What was asked for isn't met, and nothing was done.
pub const SKIPPED: u32 = 29;
/// A visible pair of the range: its key, and the place of its row.
pub const PAIR: u32 = 30;
/// No pair of the range is left.
pub const AT_END: u32 = 31;
