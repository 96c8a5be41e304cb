//! What the host writes to its log for the index.
use crate::life::Life;
use record_values::{Mark, Pair};

/// A record for the host's log. It sets one cell: the entry of a pair has this mark from now on, or the pair has no
/// entry; or the life of the index is this one.
#[derive(Clone, Copy, Debug, PartialEq, Eq)]
pub enum Note {
    EntryIs(Pair, Option<Mark>),
    LifeIs(Life),
}
