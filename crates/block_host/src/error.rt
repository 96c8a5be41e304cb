//! Why there is no device in a file.
ghost use Rattle.std.specs.Prelude.{◌≡◌};
ghost use Rattle.block_host.specs.declared.error.DiskError.TheVariants.{Open};

use block_file::FileError;
use store_file::OpenError;

/// Why there is no device in a file. It tells what its cause tells.
#[derive(Debug, Drop, thiserror::Error)]
pub enum DiskError {
    /// The file can't be opened, or made.
    #[error(transparent)]
    Open(OpenError),
    /// There is no device in it, or none that is whole.
    #[error(transparent)]
    File(FileError),
    /// This sector of the device, the first of such, is in a block that doesn't fit its digest.
    #[error("sector {0} is damaged")]
    Damaged(u64),
}

impl From<OpenError> for DiskError {
    ghost from_gives = { λ error result. result ≡ Open error };

    fn from(error: OpenError) -> DiskError {
        DiskError::Open(error)
    }
}
