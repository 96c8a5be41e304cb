//! What calls answer: 0, or the number of a refusal. Those below 24 are the numbers of `record_values::Error`.
ghost use Rattle.std.specs.Prelude.{◌≡◌};
ghost use Rattle.nsf_index_c.specs.Numbers.{status_of};
ghost use Rattle.record_values.specs.Refusals.{number_of};

use record_values::Error;

pub(crate) const OK: u32 = 0;

/// A key is longer than 56 bytes, a page has no such slot, or pairs are not those of a page in the order of its slots.
pub(crate) const BAD_PAIR: u32 = 24;

/// The builder wants another page, or none.
pub(crate) const NOT_WANTED: u32 = 25;

/// The bytes are no record.
pub(crate) const BAD_RECORD: u32 = 26;

/// Records wait that are to be taken first.
pub(crate) const RECORDS_WAIT: u32 = 27;

/// No index is open under the handle.
pub(crate) const NOT_OPEN: u32 = 28;

/// An index is open under the handle.
pub(crate) const ALREADY_OPEN: u32 = 29;

/// The index is being redone, and is to be reopened first.
pub(crate) const NOT_REOPENED: u32 = 30;

/// The index is not being redone.
pub(crate) const NOT_EMPTIED: u32 = 31;

/// There is no room for a record.
pub(crate) const NO_ROOM: u32 = 32;

/// No change has this kind.
pub(crate) const BAD_CHANGE: u32 = 33;

pub(crate) fn number_of(error: Error) -> u32
    ensures { result ≡ number_of error }
{
    u32::from(error.number())
}

/// What a call answers that had this result.
pub(crate) fn status_of(answer: Result<(), Error>) -> u32
    ensures { result ≡ status_of answer }
{
    match answer {
        Ok(()) => OK,
        Err(error) => number_of(error),
    }
}
