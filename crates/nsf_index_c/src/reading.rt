//! Reading.
ghost use Rattle.std.specs.Prelude.{◌≡◌, ◌⊎◌};
ghost use Rattle.nsf_index_c.specs.Handles.{IsNotServed, IsServed, Serves};
ghost use Rattle.nsf_index_c.specs.Reading.{Fills, Finds, Gets, IsFirstFrom, TellsPage, entry_told, highest_told};
ghost use Rattle.nsf_index_c.specs.Reading.{life_of, stat_of};

use crate::handle::Handle;
use crate::held::Held;
use crate::numbers::{BAD_PAIR, NOT_OPEN, OK};
use crate::pair::{Cursor, PairOfC, state_of, told};
use online_model::Life;
use record_values::{Key, Mark, Pair, Rid};
use std::alloc::Global;

/// What an index is.
#[repr(C)]
#[derive(Clone, Copy)]
pub struct Stat {
    pub entries: u64,
    pub marked: u64,
    /// How many entries may still be added.
    pub room: u64,
    /// How many records wait to be taken.
    pub records: u64,
    /// How far the index is built.
    pub life: u32,
    /// Whether it is to be reopened.
    pub is_redone: u32,
}

const BUILDING: u32 = 1;

const BUILDING_AT: u32 = 2;

const COMPLETE: u32 = 3;

fn life_of(life: &Life) -> u32
    ensures { result ≡ life_of life.now }
{
    match life {
        Life::Building { highest: None } => BUILDING,
        Life::Building { highest: Some(_) } => BUILDING_AT,
        Life::Complete => COMPLETE,
    }
}

// Tells the pair of the last checkpoint, where there is one.
fn tell_highest(life: &Life, highest: &mut PairOfC)
    ensures { highest.new ≡ highest_told life.now highest.old }
{
    if let Life::Building {
        highest: Some(pair),
    } = life
    {
        *highest = told(pair, None);
    }
}

// Tells an entry, or that there is none.
fn tell_entry(entry: Option<(Pair, Mark)>, found: &mut PairOfC)
    ensures { found.new ≡ entry_told found.old entry }
{
    match entry {
        Some((pair, mark)) => *found = told(&pair, Some(mark)),
        None => found.state = 0,
    }
}

impl Held {
    fn stat(&self) -> Stat
        ensures { result ≡ stat_of self.now }
    {
        let counts = self.index.counts();
        Stat {
            entries: counts.entries as u64,
            marked: counts.marked as u64,
            room: u64::from(self.most).saturating_sub(counts.entries as u64),
            records: self.notes.len() as u64,
            life: life_of(&self.index.life()),
            is_redone: u32::from(self.is_redone),
        }
    }

    fn get(&self, pair: &PairOfC, state: &mut u32) -> u32
        ensures { Gets pair.now result state.old state.new self.now.index }
    {
        match pair.pair() {
            Some(pair) => {
                *state = u32::from(state_of(self.index.get(&pair)));
                OK
            }
            None => BAD_PAIR,
        }
    }

    // The first entry whose key is this one or a greater one.
    fn first_from(&self, key: Key) -> Option<(Pair, Mark)>
        ensures { IsFirstFrom self.now.index.entries key result }
    {
        let rid = Rid { page: 0, slot: 0 };
        let least = Pair { key, rid };
        match self.index.get(&least) {
            Some(mark) => Some((least, mark)),
            None => self.index.above(Some(&least)),
        }
    }

    fn find(&self, key: &[u8], found: &mut PairOfC) -> u32
        ensures { Finds key.now result found.old found.new self.now.index }
    {
        match Key::new(key) {
            Ok(key) => {
                tell_entry(self.first_from(key), found);
                OK
            }
            Err(_) => BAD_PAIR,
        }
    }

    // Puts the next entries above a pair, or of all, as many as there is room for, and returns the pair of the last
    // one.
    fn fill(&self, above: Option<Pair>, entries: &mut [PairOfC], count: &mut usize) -> Option<Pair>
        ensures { Fills self.now.index.entries above count.new entries.old entries.new result }
    {
        let mut passed = above;
        *count = 0;
        for at in 0..entries.len() {
            let Some((pair, mark)) = self.index.above(passed.as_ref()) else {
                return passed;
            };
            entries[at] = told(&pair, Some(mark));
            *count = at + 1;
            passed = Some(pair);
        }
        passed
    }

    fn page(&self, cursor: &mut Cursor, entries: &mut [PairOfC], count: &mut usize) -> u32
        ensures { TellsPage result count.new cursor.old cursor.new entries.old entries.new self.now.index }
    {
        let Ok(above) = cursor.above() else {
            *count = 0;
            return BAD_PAIR;
        };
        let last = self.fill(above, entries, count);
        cursor.go_after(last.as_ref());
        OK
    }
}

/// Tells what the index is.
#[unsafe(no_mangle)]
pub extern "C" fn nsf_index_stat(alloc: Global, handle: &mut Handle, stat: &mut Stat) -> u32
    ensures { Serves (λ v w. (result ≡ 0) × (w ≡ v) × (stat.new ≡ stat_of v)) result handle.old handle.new }
{
    let Some(held) = handle.take(alloc) else {
        return NOT_OPEN;
    };
    *stat = held.stat();
    handle.put(held);
    OK
}

/// Tells how far the index is built, and the pair of the last checkpoint, where there is one.
#[unsafe(no_mangle)]
pub extern "C" fn nsf_index_life(
    alloc: Global,
    handle: &mut Handle,
    life: &mut u32,
    highest: &mut PairOfC,
) -> u32
    ensures { Serves (λ v w. (result ≡ 0) × (w ≡ v) × (life.new ≡ life_of v.index.life)
        × (highest.new ≡ highest_told v.index.life highest.old)) result handle.old handle.new }
{
    let Some(held) = handle.take(alloc) else {
        return NOT_OPEN;
    };
    let now = held.index.life();
    handle.put(held);
    *life = life_of(&now);
    tell_highest(&now, highest);
    OK
}

/// Tells what entry a pair has.
#[unsafe(no_mangle)]
pub extern "C" fn nsf_index_get(
    alloc: Global,
    handle: &mut Handle,
    pair: &PairOfC,
    state: &mut u32,
) -> u32
    ensures { Serves (λ v w. (w ≡ v) × Gets pair.now result state.old state.new v.index) result handle.old handle.new }
{
    let Some(held) = handle.take(alloc) else {
        return NOT_OPEN;
    };
    let status = held.get(pair, state);
    handle.put(held);
    status
}

/// Tells the first entry whose key is this one or a greater one.
#[unsafe(no_mangle)]
pub extern "C" fn nsf_index_find(
    alloc: Global,
    handle: &mut Handle,
    key: &[u8],
    found: &mut PairOfC,
) -> u32
    ensures { Serves (λ v w. (w ≡ v) × Finds key.now result found.old found.new v.index) result handle.old handle.new }
{
    let Some(held) = handle.take(alloc) else {
        return NOT_OPEN;
    };
    let status = held.find(key, found);
    handle.put(held);
    status
}

/// Tells the next entries after the cursor, as many as there is room for, and moves the cursor to the last of them.
#[unsafe(no_mangle)]
pub extern "C" fn nsf_index_page(
    alloc: Global,
    handle: &mut Handle,
    cursor: &mut Cursor,
    entries: &mut [PairOfC],
    count: &mut usize,
) -> u32
    ensures { (IsNotServed result handle.old handle.new × (count.new ≡ 0))
        ⊎ IsServed (λ v w. (w ≡ v) × TellsPage result count.new cursor.old cursor.new entries.old entries.new v.index)
        handle.old handle.new }
{
    *count = 0;
    let Some(held) = handle.take(alloc) else {
        return NOT_OPEN;
    };
    let status = held.page(cursor, entries, count);
    handle.put(held);
    status
}
