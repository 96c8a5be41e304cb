//! How far an index is built.
use record_values::Pair;

/// How far an index is built. While it is being built, `highest` is the pair of the last checkpoint: every pair up to
/// it was attempted.
#[derive(Clone, Copy, Debug, PartialEq, Eq)]
pub enum Life {
    Building { highest: Option<Pair> },
    Complete,
}
