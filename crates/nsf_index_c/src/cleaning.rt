//! The cleaner.
ghost use Rattle.std.specs.Prelude.{◌≡◌, ◌⊎◌};
ghost use Rattle.nsf_index_c.specs.Cleaning.{Cleans, CleansPair, Looks, found_of, moved_to};
ghost use Rattle.nsf_index_c.specs.Handles.{IsNotServed, IsServed, Serves};

use crate::handle::Handle;
use crate::held::{Held, note_of};
use crate::numbers::{BAD_PAIR, NOT_OPEN, NOT_REOPENED, OK, number_of};
use crate::pair::{Cursor, PairOfC};
use online_index::NextMarked;
use record_values::{Error, Pair};
use std::alloc::Global;

// What a search for a marked entry came to.
const END: u32 = 0;

const GO_ON: u32 = 1;

const FOUND: u32 = 2;

/// What is told of a call of the cleaner: its refusal or 0, and whether it took an entry out, or what it found.
#[derive(Clone, Copy)]
pub struct Cleaned {
    pub status: u32,
    pub did: u32,
}

// Tells what was found, and moves the cursor.
fn tell(cursor: &mut Cursor, next: &NextMarked) -> u32
    ensures found { result ≡ found_of next.now }
    ensures cursor { cursor.new ≡ moved_to cursor.old next.now }
{
    match next {
        NextMarked::Found(pair) => {
            cursor.go_after(Some(pair));
            FOUND
        }
        NextMarked::GoOn(pair) => {
            cursor.go_after(pair.as_ref());
            GO_ON
        }
        NextMarked::End => END,
    }
}

impl Held {
    // Looks for the next marked entry after the cursor.
    fn look(&self, cursor: &mut Cursor, most: u32) -> Cleaned
        ensures { Looks most result.status result.did cursor.old cursor.new self.now.index }
    {
        let Ok(above) = cursor.above() else {
            return Cleaned {
                status: BAD_PAIR,
                did: 0,
            };
        };
        let next = self.index.next_marked(above, most);
        Cleaned {
            status: OK,
            did: tell(cursor, &next),
        }
    }

    fn clean_pair(&mut self, pair: &Pair) -> Cleaned
        ensures { CleansPair pair.now result.status result.did self.old self.new }
    {
        if self.is_redone {
            return Cleaned {
                status: NOT_REOPENED,
                did: 0,
            };
        }
        let Ok(()) = self.notes.reserve(1) else {
            return Cleaned {
                status: number_of(Error::NoMemory),
                did: 0,
            };
        };
        let did = self.index.clean(pair);
        if did {
            self.notes.push_reserved(note_of(pair, None));
        }
        Cleaned {
            status: OK,
            did: u32::from(did),
        }
    }

    fn clean(&mut self, pair: &PairOfC) -> Cleaned
        ensures { Cleans pair.now result.status result.did self.old self.new }
    {
        match pair.pair() {
            Some(pair) => self.clean_pair(&pair),
            None => Cleaned {
                status: BAD_PAIR,
                did: 0,
            },
        }
    }
}

/// Looks for the next marked entry after the cursor, among so many entries, and moves the cursor.
#[unsafe(no_mangle)]
pub extern "C" fn nsf_index_next_marked(
    alloc: Global,
    handle: &mut Handle,
    cursor: &mut Cursor,
    most: u32,
    found: &mut u32,
) -> u32
    ensures { (IsNotServed result handle.old handle.new × (found.new ≡ 0) × (cursor.new ≡ cursor.old))
        ⊎ IsServed (λ v w. (w ≡ v) × Looks most result found.new cursor.old cursor.new v.index) handle.old handle.new }
{
    let Some(held) = handle.take(alloc) else {
        *found = 0;
        return NOT_OPEN;
    };
    let looked = held.look(cursor, most);
    handle.put(held);
    *found = looked.did;
    looked.status
}

/// Takes a marked entry out where the build has passed it, and tells whether it did.
#[unsafe(no_mangle)]
pub extern "C" fn nsf_index_clean(
    alloc: Global,
    handle: &mut Handle,
    pair: &PairOfC,
    did: &mut u32,
) -> u32
    ensures { (IsNotServed result handle.old handle.new × (did.new ≡ 0))
        ⊎ IsServed (Cleans pair.now result did.new) handle.old handle.new }
{
    let Some(mut held) = handle.take(alloc) else {
        *did = 0;
        return NOT_OPEN;
    };
    let cleaned = held.clean(pair);
    handle.put(held);
    *did = cleaned.did;
    cleaned.status
}
