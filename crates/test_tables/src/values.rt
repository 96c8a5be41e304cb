// Values for the tests.
use records::{Body, Error, Key, Pair, Rid, Row};
use std::alloc::Global;
use std::process::Abort;
use test_memory::Refusing;

/// Memory of which one allocation may be refused.
pub(crate) type Memory = Refusing<Global>;

/// Where a row stands.
pub(crate) const RID: Rid = Rid { page: 0, slot: 5 };

/// The row whose key is a number in four bytes.
pub(crate) fn row_of(number: u32) -> Result<Row, Error> {
    Ok(Row {
        key: Key::new(&number.to_be_bytes())?,
        body: Body::new(b"x")?,
    })
}

/// A pair whose key is a number in four bytes.
pub(crate) fn pair_of(number: u32) -> Result<Pair, Error> {
    Ok(Pair {
        key: Key::new(&number.to_be_bytes())?,
        rid: RID,
    })
}

/// Ends the test where this doesn't hold, and tells what was claimed.
pub(crate) fn claim(rt: &impl Abort, holds: bool, what: &str) {
    assert!(rt; holds, "{what}");
}

/// The same, with a number.
pub(crate) fn claim_at(rt: &impl Abort, holds: bool, what: &str, number: u32) {
    assert!(rt; holds, "{what} {number}");
}
