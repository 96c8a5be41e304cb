//! The pairs of the index that a change of a row moves.
ghost use Rattle.std.specs.Prelude.{◌≡◌};
ghost use Rattle.model.specs.Pairs as pairs;

use records::{Change, Pair, Rid, Row};

// The pair that goes as the row at this place is replaced: none without an index, without a row, or where the key
// stays.
#[tactic(auto, using(crate::proofs::PairLaws::key_test))]
fn gone(indexed: bool, rid: Rid, row: Option<Row>, other: Option<Row>) -> Option<Pair>
    ensures { result ≡ pairs.gone indexed rid row other }
{
    if !indexed {
        return None;
    }
    let key = row?.key;
    match other {
        None => Some(Pair { key, rid }),
        Some(other) if key == other.key => None,
        Some(_) => Some(Pair { key, rid }),
    }
}

/// The pair that a change marks.
pub(crate) fn old_pair(indexed: bool, change: &Change) -> Option<Pair>
    ensures { result ≡ pairs.old_pair indexed change.now }
{
    gone(indexed, change.rid, change.rows.old(), change.rows.new())
}

/// The pair that a change puts.
pub(crate) fn new_pair(indexed: bool, change: &Change) -> Option<Pair>
    ensures { result ≡ pairs.new_pair indexed change.now }
{
    gone(indexed, change.rid, change.rows.new(), change.rows.old())
}
