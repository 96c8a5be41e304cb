//! Why records were not redone.
ghost use Rattle.std.specs.Prelude.{◌≡◌};
ghost use Rattle.store_reader.specs.declared.refusal.Refusal.TheVariants.{NoMemory};

use std::alloc::AllocError;
use thiserror::Error;

/// Why a record was not redone.
#[derive(Clone, Copy, Debug, PartialEq, Eq, Error)]
pub enum Refusal {
    /// It can't follow the records before it.
    #[error("the record can't follow")]
    Unfit,
    /// An allocation was refused.
    #[error("no memory")]
    NoMemory,
}

impl From<AllocError> for Refusal {
    ghost from_gives = { λ _ e. e ≡ NoMemory };

    fn from(_error: AllocError) -> Refusal {
        Refusal::NoMemory
    }
}

/// Where the redoing of some records stopped. Those before it were redone.
#[derive(Clone, Copy, Debug, PartialEq, Eq)]
pub struct Stopped {
    /// Its index among them, from 0; how many they are, where memory was wanting behind the last.
    pub index: usize,
    /// Why it was not.
    pub why: Refusal,
}
