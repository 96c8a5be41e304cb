// Why a journal can't be opened.

/// Why a journal can't be opened.
#[derive(Clone, Copy, Debug, PartialEq, Eq, thiserror::Error)]
pub enum OpenError {
    /// There isn't enough memory.
    #[error("not enough memory")]
    NoMemory,
    /// The file failed.
    #[error("the file failed")]
    FileFailed,
    /// Neither area has a batch: nothing tells what the blocks were.
    #[error("no batch in the journal")]
    NoBatch,
}
