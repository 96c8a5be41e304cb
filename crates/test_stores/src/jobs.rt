// What is done over stores in memory. One function alone names the memory's type, and all else is generic over it.
use crate::claims::claim;
use crate::store::StoreMemory;
use crate::{
    build_tests, byte_tests, crash_tests, damage_tests, image_tests, memory_tests, migration_tests,
    parts_tests,
};
use records::Error;
use restart::Event;
use std::alloc::Global;
use std::mem::forget;
use std::process::Abort;
use test_memory::Refusing;
use test_store::{Script, requests_of};

/// What is done with stores, and with the requests of scripts.
#[derive(Clone, Copy)]
pub(crate) enum Job<'a> {
    /// An index is built over each place.
    BuildIndex,
    /// Stores that were harmed are opened.
    OpenHarmed,
    /// Stores of version 1 are moved.
    Move,
    /// Stores are not moved.
    KeepOld,
    /// Migrations are hindered.
    Hinder,
    /// The writes of images are counted.
    CountWrites,
    /// What the requests leave is compared byte by byte.
    CompareBytes(byte_tests::Layout),
    /// A run is stopped at each call of the case.
    Stop(crash_tests::Case),
    /// An image becomes current.
    Flip(image_tests::Flip<'a>),
    /// Each allocation is refused in turn.
    Refuse(memory_tests::Wanted),
    /// A moved store goes on.
    GoOn,
    /// The store is taken apart.
    TakeApart(parts_tests::Parts),
    /// An index is built to its end, by the record of this number, or not.
    BuildToEnd(Result<u64, Error>),
}

fn do_over<M: StoreMemory>(
    rt: &impl Abort,
    memory: M,
    alloc: Global,
    events: &[Event],
    job: Job<'_>,
) -> Result<(), Error> {
    match job {
        Job::BuildIndex => build_tests::fill_and_build_over(rt, memory, alloc),
        Job::OpenHarmed => damage_tests::open_harmed(rt, memory, alloc),
        Job::Move => migration_tests::move_each(rt, memory, alloc),
        Job::KeepOld => migration_tests::keep_each(rt, memory, alloc),
        Job::Hinder => migration_tests::hinder_all(rt, memory, alloc),
        Job::CountWrites => image_tests::count_writes(rt, memory, alloc),
        Job::CompareBytes(layout) => {
            byte_tests::run_and_compare(rt, memory, alloc, events, layout)
        }
        Job::Stop(case) => crash_tests::stop_in_each(rt, memory, alloc, events, case),
        Job::Flip(flip) => image_tests::check_flip(rt, memory, alloc, events, &flip),
        Job::Refuse(wanted) => memory_tests::refuse_each(rt, memory, alloc, events, wanted),
        Job::GoOn => migration_tests::go_on(rt, memory, alloc, events),
        Job::TakeApart(wanted) => parts_tests::take_apart(rt, memory, alloc, events, wanted),
        Job::BuildToEnd(wanted) => parts_tests::build_to_end(rt, memory, alloc, events, wanted),
    }
}

// Does this with these requests. Nothing is refused, but where that is wanted.
fn do_with(rt: &impl Abort, alloc: Global, events: &[Event], job: Job<'_>) {
    let memory = Refusing::new(alloc, u64::MAX);
    let done = do_over(rt, &memory, alloc, events, job);
    forget(memory);
    claim(rt, done.is_ok(), "that nothing else is refused");
}

// Does this, with the requests of these scripts, over memory of which none is refused at first.
fn do_job(rt: &impl Abort, alloc: Global, scripts: &[Script<'_>], job: Job<'_>) {
    match requests_of(alloc, scripts) {
        Ok(events) => {
            do_with(rt, alloc, &events, job);
            forget(events);
        }
        Err(_) => claim(rt, false, "requests"),
    }
}

/// Scripts, and what is done with their requests.
pub(crate) type Task = (&'static [Script<'static>], Job<'static>);

/// Does all of it, one behind the other, each on new disks.
pub(crate) fn do_all(rt: &impl Abort, alloc: Global, tasks: &[Task]) {
    for (scripts, job) in tasks {
        do_job(rt, alloc, *scripts, *job);
    }
}

static SMALL: [&[Task]; 5] = [
    byte_tests::TASKS,
    damage_tests::TASKS,
    image_tests::TASKS,
    migration_tests::TASKS,
    parts_tests::TASKS,
];

// A store byte by byte; stores that were harmed; images that become current, and pass over pages, and the device calls
// of groups; stores of version 1: they are moved and go on, or aren't moved, or are hindered; and stores that are built
// to the end, and taken apart.
#[test]
fn bytes_harms_images_and_moves(rt: HostRuntime) {
    for tasks in &SMALL {
        do_all(&rt, rt.alloc(), *tasks);
    }
}
