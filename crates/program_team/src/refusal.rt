//! Why the threads could not work on a store.
ghost use Rattle.std.specs.Prelude.{◌≡◌};
ghost use Rattle.program_team.specs.Refusals.{told_as};

use records::Error;
use threads_lifetime::OpenError;

/// Why the threads could not work on a store.
#[derive(Clone, Copy, PartialEq)]
pub enum NotOpened {
    /// The restart was refused, or there was no memory behind it.
    Refused(Error),
    /// The store opens, but is not sound: its index doesn't fit its rows.
    Unsound,
    /// No thread could be made. (An opening alone makes none.)
    NoThread,
}

/// The same refusal.
pub(crate) fn not_opened(error: OpenError) -> NotOpened
    ensures { result ≡ told_as error }
{
    match error {
        OpenError::Refused(error) => NotOpened::Refused(error),
        OpenError::Unsound => NotOpened::Unsound,
        OpenError::NoThread => NotOpened::NoThread,
    }
}
