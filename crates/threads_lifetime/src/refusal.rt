//! Why a store was not opened.
use records::Error;

/// Why no store was opened for threads.
#[derive(Clone, Copy, Debug, PartialEq, Eq, thiserror::Error)]
pub enum OpenError {
    /// The restart was refused, or there was no memory behind it.
    #[error("{0}")]
    Refused(#[from] Error),
    /// The store opens, but is not sound: its index doesn't fit its rows. Nothing of it was lost, and `restart` opens
    /// it.
    #[error("Unsound")]
    Unsound,
    /// The store opens, but no thread could be made for what runs beside its clients. (An opening alone makes none, and
    /// never answers so.)
    #[error("NoThread")]
    NoThread,
}

/// No more seats than this share a store: as many as transactions may be active.
pub(crate) const SEATS_MAX: usize = 16;
