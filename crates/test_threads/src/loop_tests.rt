//! Each loop is called by itself: the builder completes an index, and ends where the index is dropped; the cleaner
//! takes an entry out; the flusher writes all.
use crate::claims::claim;
use crate::found::formatted;
use crate::loops::{Course, play_loops};
use records::{Error, Geometry};
use std::alloc::Global;
use std::sync::Wait;

static COURSES: [(Course, &str); 3] = [
    (Course::BuildAndClean, "an index that is built and cleaned"),
    (Course::BuildDropped, "an index that is dropped"),
    (Course::Flush, "records that are safe"),
];

// Whether all goes so on a new store.
fn goes_so<R: Wait>(rt: &R, alloc: Global, course: Course) -> Result<bool, Error> {
    let disk = formatted(alloc, Geometry::new(2, 256, 16)?, 4_096)?;
    play_loops(rt, alloc, disk, course)
}

#[test]
fn each_loop_by_itself(rt: HostRuntime) {
    for (course, what) in &COURSES {
        let went = goes_so(&rt, rt.alloc(), *course);
        claim(&rt, matches!(went, Ok(true)), *what);
    }
}
