//! The build.
ghost use Rattle.std.specs.Prelude.{◌≡◌, ◌⊎◌, IfNone, IfOk, IfSome, ℕ};
ghost use Rattle.nsf_index_c.specs.Building.{ArePairs, Builds, IsNoPage, TakesPage, TellsWanted, told_built};
ghost use Rattle.nsf_index_c.specs.Handles.{IsNotServed, IsServed, Serves};

use crate::handle::Handle;
use crate::held::Held;
use crate::numbers::{BAD_PAIR, NOT_OPEN, NOT_REOPENED, NOT_WANTED, OK, number_of, status_of};
use crate::pair::PairOfC;
use online_index::{Stop, is_page};
use record_values::{Error, Pair, SLOTS_PER_PAGE};
use std::alloc::{AllocError, Global};

// Why a run of steps ended.
const MORE: u32 = 1;

const WANTS_PAGE: u32 = 2;

const IS_COMPLETE: u32 = 3;

/// What is told of a run of steps: its refusal or 0, why it ended, and the page that is wanted.
#[derive(Clone, Copy)]
pub struct Built {
    pub status: u32,
    pub stop: u32,
    pub page: u32,
}

fn told_built(answer: Result<Stop, Error>) -> Built
    ensures { result ≡ told_built answer }
{
    let (status, stop, page) = match answer {
        Ok(Stop::Most) => (OK, MORE, 0),
        Ok(Stop::WantsPage(page)) => (OK, WANTS_PAGE, page),
        Ok(Stop::Complete) => (OK, IS_COMPLETE, 0),
        Err(error) => (number_of(error), 0, 0),
    };
    Built { status, stop, page }
}

// The pairs that C gives, if each is one.
fn read(alloc: Global, pairs: &[PairOfC]) -> Result<Option<Vec<Pair>>, AllocError>
    ensures some { IfOk result (λ read. IfSome read (λ ps. ArePairs pairs.now ps.items)) }
    ensures none { IfOk result (λ read. IfNone read ((page : ℕ) → IsNoPage page pairs.now)) }
{
    let mut read = Vec::with_capacity(alloc, pairs.len())?;
    for given in pairs {
        let Some(pair) = given.pair() else {
            return Ok(None);
        };
        read.push(pair)?;
    }
    Ok(Some(read))
}

impl Held {
    // Steps of the builder, at most so many.
    fn build(&mut self, most: u32) -> Built
        ensures { Builds most result self.old self.new }
    {
        if self.is_redone {
            return Built {
                status: NOT_REOPENED,
                stop: 0,
                page: 0,
            };
        }
        told_built(self.index.build_many(most, &mut self.notes))
    }

    // The builder takes the pairs of a page.
    fn take_page(&mut self, alloc: Global, page: u32, pairs: &[PairOfC]) -> u32
        ensures { TakesPage page pairs.now result self.old self.new }
    {
        if self.is_redone {
            return NOT_REOPENED;
        }
        if pairs.len() > SLOTS_PER_PAGE as usize {
            return BAD_PAIR;
        }
        let Ok(read) = read(alloc, pairs) else {
            return number_of(Error::NoMemory);
        };
        let Some(read) = read else {
            return BAD_PAIR;
        };
        if !is_page(page, &read) {
            return BAD_PAIR;
        }
        if self.index.wants_page() != Some(page) {
            return NOT_WANTED;
        }
        status_of(self.index.take_page(page, &read))
    }
}

// Tells whether a page is wanted, and which.
fn tell_wanted(wanted: Option<u32>, page: &mut u32, is_wanted: &mut u32)
    ensures { TellsWanted wanted page.new is_wanted.new }
{
    match wanted {
        Some(number) => {
            *page = number;
            *is_wanted = 1;
        }
        None => {
            *page = 0;
            *is_wanted = 0;
        }
    }
}

/// Tells whether the builder wants a page, and which.
#[unsafe(no_mangle)]
pub extern "C" fn nsf_index_wants_page(
    alloc: Global,
    handle: &mut Handle,
    page: &mut u32,
    is_wanted: &mut u32,
) -> u32
    ensures { Serves (λ v w. (result ≡ 0) × (w ≡ v) × TellsWanted v.index.scan.wanted page.new is_wanted.new) result
        handle.old handle.new }
{
    let Some(held) = handle.take(alloc) else {
        tell_wanted(None, page, is_wanted);
        return NOT_OPEN;
    };
    tell_wanted(held.index.wants_page(), page, is_wanted);
    handle.put(held);
    OK
}

/// Hands over the pairs of the page that is wanted, in the order of their slots.
#[unsafe(no_mangle)]
pub extern "C" fn nsf_index_take_page(
    alloc: Global,
    handle: &mut Handle,
    page: u32,
    pairs: &[PairOfC],
) -> u32
    ensures { Serves (TakesPage page pairs.now result) result handle.old handle.new }
{
    let Some(mut held) = handle.take(alloc) else {
        return NOT_OPEN;
    };
    let status = held.take_page(alloc, page, pairs);
    handle.put(held);
    status
}

/// Steps of the builder, at most so many, and why they ended.
#[unsafe(no_mangle)]
pub extern "C" fn nsf_index_build(
    alloc: Global,
    handle: &mut Handle,
    most: u32,
    stop: &mut u32,
    page: &mut u32,
) -> u32
    ensures { Serves (Builds most (record { status = result; stop = stop.new; page = page.new })) result handle.old
        handle.new }
{
    *stop = 0;
    *page = 0;
    let Some(mut held) = handle.take(alloc) else {
        return NOT_OPEN;
    };
    let built = held.build(most);
    handle.put(held);
    *stop = built.stop;
    *page = built.page;
    built.status
}
