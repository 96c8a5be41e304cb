//! Why rows aren't read, written, loaded or exported.
ghost use Rattle.std.specs.Prelude.{◌≡◌};
ghost use Rattle.program_rows.specs.Reading.{IsReadError};

use crate::columns::HeaderError;
use csv::ErrorKind;
use records::Error;
use std::alloc::AllocError;
use std::io;

/// Why no record is read from a text, or written to one.
#[derive(Drop)]
pub enum TextError {
    /// Its header isn't there, or doesn't name the columns.
    Header(HeaderError),
    /// It can't be read, or written.
    Io(io::Error),
    /// An allocation was refused.
    NoMemory,
}

impl From<HeaderError> for TextError {
    ghost use Rattle.program_rows.specs.declared.error.TextError.TheVariants.{Header};

    ghost from_gives = { λ error result. result ≡ Header error };

    fn from(error: HeaderError) -> TextError {
        TextError::Header(error)
    }
}

impl From<AllocError> for TextError {
    ghost use Rattle.program_rows.specs.declared.error.TextError.TheVariants.{NoMemory};

    ghost from_gives = { λ _ result. result ≡ NoMemory };

    fn from(_error: AllocError) -> TextError {
        TextError::NoMemory
    }
}

/// What an error of records of bytes, of any length, tells: there are no others but these two.
pub(crate) fn error_of_text(error: csv::Error) -> TextError
    ensures { IsReadError result }
{
    match error.into_kind() {
        ErrorKind::Io(error) => TextError::Io(error),
        _ => TextError::NoMemory,
    }
}

impl From<csv::Error> for TextError {
    ghost use Rattle.program_rows.specs.Reading.{IsReadError};

    ghost from_gives = { λ _ result. IsReadError result };

    fn from(error: csv::Error) -> TextError {
        error_of_text(error)
    }
}

impl From<io::Error> for TextError {
    ghost use Rattle.program_rows.specs.declared.error.TextError.TheVariants.{Io};

    ghost from_gives = { λ error result. result ≡ Io error };

    fn from(error: io::Error) -> TextError {
        TextError::Io(error)
    }
}

/// Why rows aren't loaded into a store, or exported from one.
#[derive(Drop)]
pub enum RowsError {
    /// Their text can't be read, or written.
    Text(TextError),
    /// The store refused.
    Store(Error),
}

impl From<TextError> for RowsError {
    ghost use Rattle.program_rows.specs.declared.error.RowsError.TheVariants.{Text};

    ghost from_gives = { λ error result. result ≡ Text error };

    fn from(error: TextError) -> RowsError {
        RowsError::Text(error)
    }
}

impl From<Error> for RowsError {
    ghost use Rattle.program_rows.specs.declared.error.RowsError.TheVariants.{Store};

    ghost from_gives = { λ error result. result ≡ Store error };

    fn from(error: Error) -> RowsError {
        RowsError::Store(error)
    }
}
