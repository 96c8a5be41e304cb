// The tree of the entries: how high it is, and what a refused plan leaves.
use crate::jobs::{Job, do_job};
use crate::values::{Memory, claim, claim_at, pair_of};
use btree_node::{BTree, ENTRIES_MAX, InLeaf};
use marked_index::MarkedIndex;
use records::{Error, Geometry, Mark, Pair};
use std::alloc::{AllocError, Allocator, Global};
use std::mem::forget;
use std::process::Abort;

// Plans the insertion of a pair.
fn plan<A: Allocator + Copy>(rt: &impl Abort, tree: &BTree<A>, pair: &Pair) -> Result<(), Error> {
    assert!(rt; tree.len() < ENTRIES_MAX);
    forget(tree.plan_insert(pair)?);
    Ok(())
}

/// The mark of a pair, and how many nodes were visited.
pub(crate) fn found<A: Allocator + Copy>(tree: &BTree<A>, pair: &Pair) -> (Option<Mark>, u32) {
    tree.get(pair)
}

/// Puts a pair in that is absent. No memory is left from the plan on.
pub(crate) fn put_quietly<A: Allocator + Copy>(
    rt: &impl Abort,
    tree: &mut BTree<A>,
    pair: &Pair,
    memory: &Memory,
) -> Result<(), Error> {
    assert!(rt; tree.len() < ENTRIES_MAX && tree.get(pair).0.is_none());
    let plan = tree.plan_insert(pair)?;
    memory.refuse_after(0);
    tree.insert(plan, Mark::Live);
    Ok(())
}

fn put_pair<A: Allocator + Copy>(
    rt: &impl Abort,
    tree: &mut BTree<A>,
    pair: &Pair,
) -> Result<(), Error> {
    assert!(rt; tree.len() < ENTRIES_MAX && tree.get(pair).0.is_none());
    let plan = tree.plan_insert(pair)?;
    tree.insert(plan, Mark::Live);
    Ok(())
}

/// Puts a pair in that is absent.
pub(crate) fn put<A: Allocator + Copy>(
    rt: &impl Abort,
    tree: &mut BTree<A>,
    number: u32,
) -> Result<(), Error> {
    let pair = pair_of(number)?;
    put_pair(rt, tree, &pair)
}

/// Puts a pair into its leaf, if that has room and no entry of it.
pub(crate) fn put_in_leaf<A: Allocator + Copy>(
    rt: &impl Abort,
    tree: &mut BTree<A>,
    pair: &Pair,
    mark: Mark,
) -> InLeaf {
    assert!(rt; tree.len() < ENTRIES_MAX);
    tree.put_in_leaf(pair, mark)
}

/// Takes a pair out that is present.
pub(crate) fn take<A: Allocator + Copy>(rt: &impl Abort, tree: &mut BTree<A>, pair: &Pair) {
    assert!(rt; tree.get(pair).0.is_some());
    tree.remove(pair);
}

// Does this. Nothing is refused, but where that is wanted.
fn do_whole(rt: &impl Abort, alloc: Global, job: Job) {
    let (done, _) = do_job(rt, alloc, u64::MAX, job);
    claim(rt, done.is_ok(), "that nothing else is refused");
}

// How many levels a tree of so many entries has, up to 33 that came in rising order.
fn levels_of(pairs: u32) -> u32 {
    match pairs {
        0 => 0,
        1..=32 => 1,
        _ => 2,
    }
}

fn grow<A: Allocator + Copy>(rt: &impl Abort, tree: &mut BTree<A>) -> Result<(), Error> {
    for number in 1..=33u32 {
        put(rt, tree, number)?;
        claim_at(
            rt,
            tree.height() == levels_of(number),
            "the levels of so many pairs:",
            number,
        );
    }
    Ok(())
}

fn shrink<A: Allocator + Copy>(rt: &impl Abort, tree: &mut BTree<A>) -> Result<(), Error> {
    for left in (0..=32u32).rev() {
        take(rt, tree, &pair_of(left + 1)?);
        let is_low = tree.height() == levels_of(left);
        claim_at(
            rt,
            is_low || left == 32,
            "the levels with so many left:",
            left,
        );
    }
    Ok(())
}

fn grow_and_shrink_in<A: Allocator + Copy>(
    rt: &impl Abort,
    tree: &mut BTree<A>,
) -> Result<(), Error> {
    grow(rt, tree)?;
    shrink(rt, tree)
}

/// A tree grows by 33 pairs, and shrinks again.
pub(crate) fn grow_and_shrink<A: Allocator + Copy>(
    rt: &impl Abort,
    memory: A,
) -> Result<(), Error> {
    let mut tree = BTree::new(memory);
    let done = grow_and_shrink_in(rt, &mut tree);
    forget(tree);
    done
}

// How many runs of entries a walk over a tree takes, and how many entries it meets.
fn runs_of<A: Allocator + Copy>(tree: &BTree<A>) -> (usize, usize) {
    let mut last = None;
    let mut met = 0usize;
    for runs in 0..tree.len() {
        let run = tree.run_above(last.as_ref());
        let Some(entry) = run.last() else {
            return (runs, met);
        };
        last = Some(entry.pair);
        met = met.saturating_add(run.len());
    }
    (tree.len(), met)
}

fn fill_tree<A: Allocator + Copy>(
    rt: &impl Abort,
    tree: &mut BTree<A>,
    highest: u32,
) -> Result<(), Error> {
    for number in 0..65_536u32 {
        put(rt, tree, number.abs_diff(highest))?;
    }
    claim(
        rt,
        tree.len() == 65_536 && tree.height() <= 4,
        "four levels",
    );
    let (runs, met) = runs_of(tree);
    claim(
        rt,
        runs <= 4_096 && met == 65_536,
        "few runs over all pairs",
    );
    Ok(())
}

/// Puts in as many pairs as a tree may have, rising from 0 or falling from the highest. A run has 16 entries or more.
pub(crate) fn fill<A: Allocator + Copy>(
    rt: &impl Abort,
    memory: A,
    highest: u32,
) -> Result<(), Error> {
    let mut tree = BTree::new(memory);
    let filled = fill_tree(rt, &mut tree, highest);
    forget(tree);
    filled
}

// How many leaves the entries of an index stand in.
fn leaves_of<A: Allocator + Copy>(index: &MarkedIndex<A>) -> usize {
    let mut last = None;
    for leaves in 0..index.len() {
        let run = index.run_above(last.as_ref());
        let Some(entry) = run.last() else {
            return leaves;
        };
        last = Some(entry.pair);
    }
    index.len()
}

// The builder's pairs, in rising order.
fn build_up<A: Allocator + Copy>(index: &mut MarkedIndex<A>) -> Result<(), Error> {
    for number in 0..2_400u32 {
        index.build_put(&pair_of(number)?)?;
    }
    Ok(())
}

/// Builds an index of pairs that rise. A leaf has 24 of them: it is full to three quarters.
pub(crate) fn build<A: Allocator + Copy>(rt: &impl Abort, memory: A) -> Result<(), Error> {
    let geometry = Geometry::new(40, 2_560, 4)?;
    let mut index = MarkedIndex::new(memory, geometry);
    let built = build_up(&mut index);
    claim(rt, leaves_of(&index) == 100, "100 leaves of 2,400 pairs");
    forget(index);
    built
}

// Whether a walk meets just the pairs of these numbers, which all are live.
fn walks<A: Allocator + Copy>(tree: &BTree<A>, numbers: &[u32]) -> Result<bool, Error> {
    let mut last = None;
    for number in numbers {
        let Some((pair, mark)) = tree.above(last.as_ref()) else {
            return Ok(false);
        };
        if pair != pair_of(*number)? || mark != Mark::Live {
            return Ok(false);
        }
        last = Some(pair);
    }
    Ok(tree.above(last.as_ref()).is_none())
}

// Plans an insertion with the allocation refused that so many come before. Whether one was.
fn is_refused<A: Allocator + Copy>(
    rt: &impl Abort,
    memory: &Memory,
    tree: &BTree<A>,
    pair: &Pair,
    before: u64,
) -> bool {
    let was = memory.refused();
    memory.refuse_after(before);
    let planned = plan(rt, tree, pair);
    memory.refuse_after(u64::MAX);
    let is_refused = was < memory.refused();
    let wanted = if is_refused {
        Err(Error::NoMemory)
    } else {
        Ok(())
    };
    claim(
        rt,
        planned == wanted,
        "a want of memory just where it is refused",
    );
    is_refused
}

// Plans an insertion with each of its allocations refused in turn, and at last none. How many there were. The tree
// stays as it was.
fn refuse_each<A: Allocator + Copy>(
    rt: &impl Abort,
    memory: &Memory,
    tree: &BTree<A>,
    number: u32,
    numbers: &[u32],
) -> Result<u64, Error> {
    let pair = pair_of(number)?;
    for before in 0..9 {
        if !is_refused(rt, memory, tree, &pair, before) {
            return Ok(before);
        }
        claim(rt, walks(tree, numbers)?, "the pairs in order");
    }
    Ok(u64::MAX)
}

// Adds a number to the sorted ones, where it is new.
fn add(numbers: &mut Vec<u32>, number: u32) -> Result<(), AllocError> {
    if let Err(at) = numbers.binary_search(&number) {
        numbers.insert(at, number)?;
    }
    Ok(())
}

// Puts a number in, once its insertion was refused. How often it was.
fn refuse_and_put_one<A: Allocator + Copy>(
    rt: &impl Abort,
    memory: &Memory,
    tree: &mut BTree<A>,
    numbers: &mut Vec<u32>,
    number: u32,
) -> Result<u64, Error> {
    let refused = refuse_each(rt, memory, tree, number, numbers)?;
    put(rt, tree, number)?;
    add(numbers, number)?;
    Ok(refused)
}

fn refuse_and_put_in<A: Allocator + Copy>(
    rt: &impl Abort,
    memory: &Memory,
    tree: &mut BTree<A>,
    numbers: &mut Vec<u32>,
) -> Result<u64, Error> {
    let mut refused: u64 = 0;
    let mut number: u32 = 0;
    for _ in 0..2_000 {
        number = (number % 2_000 + 709) % 2_000;
        let more = refuse_and_put_one(rt, memory, tree, numbers, number)?;
        claim(rt, more < 9, "few allocations of an insertion");
        refused = refused.saturating_add(more);
    }
    Ok(refused)
}

// What became of the tree is as it should be.
fn check_tree<A: Allocator + Copy>(
    rt: &impl Abort,
    tree: &BTree<A>,
    numbers: &[u32],
) -> Result<(), Error> {
    claim(
        rt,
        tree.len() == 2_000 && numbers.len() == 2_000,
        "2,000 pairs",
    );
    claim(rt, walks(tree, numbers)?, "the pairs in order");
    Ok(())
}

fn refuse_and_check<A: Allocator + Copy>(
    rt: &impl Abort,
    memory: &Memory,
    tree: &mut BTree<A>,
    numbers: &mut Vec<u32>,
) -> Result<(), Error> {
    let refused = refuse_and_put_in(rt, memory, tree, numbers)?;
    claim(rt, 100 < refused, "more than 100 refusals");
    check_tree(rt, tree, numbers)
}

/// Puts numbers in, before each of which its insertion is refused. The tree takes this memory, which may refuse.
pub(crate) fn refuse_and_put<A: Allocator + Copy>(
    rt: &impl Abort,
    alloc: Global,
    memory: &Memory,
    within: A,
) -> Result<(), Error> {
    let mut tree = BTree::new(within);
    let mut numbers = Vec::new(alloc);
    let put = refuse_and_check(rt, memory, &mut tree, &mut numbers);
    forget(tree);
    forget(numbers);
    put
}

static JOBS: [Job; 5] = [
    Job::GrowAndShrink,
    Job::Build,
    Job::Fill(0),
    Job::Fill(65_535),
    Job::RefusePlans,
];

// The 33rd pair makes a second level. Many pairs give few levels and few runs. A refused plan leaves the tree as it
// was.
#[test]
fn trees_grow_and_stay(rt: HostRuntime) {
    for job in &JOBS {
        do_whole(&rt, rt.alloc(), *job);
    }
}
