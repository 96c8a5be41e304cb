//! Tests of the crates `records` and `store_image_parts`: values byte by byte, as the format document has them, and
//! texts.
//!
//! The parts of version 1, which are only read, `test_stores` has.

mod part_tests;
mod record_tests;

use crate::values::claim;
use part_tests::are_spelled;
use record_tests::{are_of_versions, are_printed, are_records};

#[test]
fn values_byte_by_byte(rt: HostRuntime) {
    let are_parts = matches!(are_spelled(), Ok(true));
    claim(&rt, are_parts, "parts byte by byte");
    claim(&rt, are_records(rt.alloc()), "records byte by byte");
    claim(&rt, are_of_versions(), "records of version 1");
    claim(&rt, are_printed(rt.alloc()), "refusals that are printed");
}
