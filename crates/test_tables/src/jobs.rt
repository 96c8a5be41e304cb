// What is done over memory of which an allocation may be refused. One function alone names the memory's type, and all
// else is generic over it.
use crate::values::Memory;
use crate::{memory_tests, quiet_tests, tree_tests};
use records::Error;
use std::alloc::{Allocator, Global};
use std::mem::forget;
use std::process::Abort;
use test_memory::Refusing;

/// What is done with a part, or with a tree.
#[derive(Clone, Copy)]
pub(crate) enum Job {
    /// The part of this number is used.
    Use(u8),
    /// The calls of the part of this number that take no memory are made.
    UseQuietly(u8),
    /// A transaction begins where no memory is left.
    BeginWithout,
    /// A tree grows by 33 pairs, and shrinks again.
    GrowAndShrink,
    /// A tree gets as many pairs as it may have, rising from 0 or falling from this number.
    Fill(u32),
    /// An index is built of pairs in rising order.
    Build,
    /// Each insertion is refused before it is made.
    RefusePlans,
}

fn do_over<A: Allocator + Copy>(
    rt: &impl Abort,
    alloc: Global,
    memory: &Memory,
    within: A,
    job: Job,
) -> Result<(), Error> {
    match job {
        Job::Use(part) => memory_tests::use_part(rt, within, part),
        Job::UseQuietly(part) => quiet_tests::use_quietly(rt, memory, within, part),
        Job::BeginWithout => quiet_tests::begin_without(memory, within),
        Job::GrowAndShrink => tree_tests::grow_and_shrink(rt, within),
        Job::Fill(highest) => tree_tests::fill(rt, within, highest),
        Job::Build => tree_tests::build(rt, within),
        Job::RefusePlans => tree_tests::refuse_and_put(rt, alloc, memory, within),
    }
}

/// Does this where the allocation is refused that so many come before. What it comes to, and how many were refused.
pub(crate) fn do_job(
    rt: &impl Abort,
    alloc: Global,
    before: u64,
    job: Job,
) -> (Result<(), Error>, u64) {
    let memory = Refusing::new(alloc, before);
    let done = do_over(rt, alloc, &memory, &memory, job);
    let refused = memory.refused();
    forget(memory);
    (done, refused)
}
