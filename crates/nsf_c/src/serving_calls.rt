//! The calls on a store that is open.
ghost use Rattle.std.specs.Prelude.{◌≡◌, ◌⊎◌, ◌↔◌, IsTrue};
ghost use Rattle.nsf_c.specs.Calls.{Flushes, IsAnswered, IsNotServed, IsServed, IsSound, Serves, TakesImage, Tells};
ghost use Rattle.nsf_c.specs.Calls.{stat_of};
ghost use Rattle.nsf_c.specs.Handles.{IsOpen, Moves, Reads};

use crate::asked::Asked;
use crate::handle::Handle;
use crate::spot::{Spot, put_found};
use crate::told::{Stat, Told, life_told, refused, status_of, told_of};
use restart::{Event, Reply};
use std::alloc::Global;

// Serves an event.
fn serve(alloc: Global, handle: &mut Handle, event: Event) -> Reply<Global>
    requires { IsOpen handle.old }
    ensures { Moves (Serves event result) handle.old handle.new }
{
    let mut held = handle.take(alloc);
    let reply = held.store.serve(event);
    handle.put(held);
    reply
}

/// Serves the event that is asked for, tells its reply, and puts the places that a search found. Answers 0, or the
/// number of the refusal; where what is asked for is no event, nothing is done. A commit is refused by 2 once a flush
/// or a copy was.
#[unsafe(no_mangle)]
pub extern "C" fn nsf_serve(
    alloc: Global,
    handle: &mut Handle,
    asked: &Asked,
    key: &[u8],
    body: &[u8],
    spots: &mut [Spot],
    told: &mut Told,
) -> u32
    requires { IsOpen handle.old }
    ensures { IsServed asked.now key.now body.now result told.new spots.old spots.new handle.old handle.new
        ⊎ IsNotServed asked.now key.now body.now result told.new spots.old spots.new handle.old handle.new }
{
    match asked.event(key, body) {
        Ok(event) => {
            let reply = serve(alloc, handle, event);
            put_found(spots, &reply);
            *told = told_of(&reply);
            status_of(&reply)
        }
        Err(number) => {
            *told = refused();
            number
        }
    }
}

/// Flushes until every record made is synced, or a refusal comes. Where the log is full, an image is taken and made
/// current.
#[unsafe(no_mangle)]
pub extern "C" fn nsf_flush(alloc: Global, handle: &mut Handle, told: &mut Told) -> u32
    requires { IsOpen handle.old }
    ensures { IsAnswered Flushes result told.new handle.old handle.new }
{
    let mut held = handle.take(alloc);
    let reply = held.store.flush();
    handle.put(held);
    *told = told_of(&reply);
    status_of(&reply)
}

/// Takes an image of the store and makes it current, or a refusal comes.
#[unsafe(no_mangle)]
pub extern "C" fn nsf_image(alloc: Global, handle: &mut Handle, told: &mut Told) -> u32
    requires { IsOpen handle.old }
    ensures { IsAnswered TakesImage result told.new handle.old handle.new }
{
    let mut held = handle.take(alloc);
    let reply = held.store.take_image();
    handle.put(held);
    *told = told_of(&reply);
    status_of(&reply)
}

/// Whether the index fits the rows, so that all that is promised of a run is promised of this store too. To be asked
/// right behind `nsf_open`, while no transaction is active.
#[unsafe(no_mangle)]
pub extern "C" fn nsf_can_open(alloc: Global, handle: &mut Handle) -> bool
    requires { IsOpen handle.old }
    ensures { Reads (λ store. IsTrue result ↔ IsSound store) handle.old handle.new }
{
    let held = handle.take(alloc);
    let is_sound = held.store.store().core().can_open();
    handle.put(held);
    is_sound
}

/// Tells what the store is, and how far it has come.
#[unsafe(no_mangle)]
pub extern "C" fn nsf_stat(alloc: Global, handle: &mut Handle, stat: &mut Stat)
    requires { IsOpen handle.old }
    ensures { Reads (λ store. stat.new ≡ stat_of store) handle.old handle.new }
{
    let held = handle.take(alloc);
    let core = held.store.store().core();
    let counts = core.counts();
    *stat = Stat {
        last: core.last(),
        horizon: held.store.store().horizon(),
        attempts: core.attempts(),
        rows: counts.rows as u64,
        entries: counts.entries as u64,
        marked: counts.marked as u64,
        pages: core.pages(),
        life: life_told(&core.life()).kind,
    };
    handle.put(held);
}
