//! The index in order, and what is committed.
ghost use Rattle.std.specs.Prelude.{◌⊎◌};
ghost use Rattle.nsf_core.specs.Value.{value_of};
ghost use Rattle.core_scan.specs.Answered.{IsPageOf};
ghost use Rattle.core_scan.specs.Backward.{IsPageBackOf};
ghost use Rattle.nsf_c.specs.Calls.{IsCommittedTold, core_in};
ghost use Rattle.nsf_c.specs.Handles.{IsOpen, Reads};
ghost use Rattle.nsf_c.specs.Scans.{IsNotShown, IsNotShownBack, IsShown, IsShownBack, TellsPage, index_read};

use crate::asked::rid_of;
use crate::bounds::{Bounds, Sought, SoughtBack};
use crate::handle::Handle;
use crate::spot::Spot;
use crate::told::{Told, refused, row_told, shown};
use core_committed::{get_committed, scan_committed};
use core_scan::{Page, scan, scan_back};
use nsf_core::Core;
use records::Error;
use std::alloc::Global;

// The pair that is sought, as a page of one.
fn first_of(alloc: Global, core: &Core<Global>, sought: &Sought) -> Result<Page<Global>, Error>
    ensures { IsPageOf (index_read sought.now.is_committed (value_of core.now)) (value_of core.now).life
        sought.now.range sought.now.after 1 result }
{
    let Sought { range, after, .. } = sought;
    if sought.is_committed {
        return scan_committed(alloc, core, range, after.as_ref(), 1);
    }
    scan(alloc, core, range, after.as_ref(), 1)
}

// The pair that is sought backward, as a page of one.
fn last_of(alloc: Global, core: &Core<Global>, sought: &SoughtBack) -> Result<Page<Global>, Error>
    ensures { IsPageBackOf (value_of core.now).index.entries (value_of core.now).life sought.now.range
        sought.now.before 1 result }
{
    scan_back(alloc, core, &sought.range, sought.before.as_ref(), 1)
}

// Tells the pair that was found, or why there is none.
fn tell(page: Result<Page<Global>, Error>, told: &mut Told) -> u32
    ensures { TellsPage page result told.new }
{
    match page {
        Ok(page) => {
            *told = shown(page.pairs.as_slice());
            0
        }
        Err(error) => {
            *told = refused();
            u32::from(error.number())
        }
    }
}

/// Tells the first visible pair of a range, or the first one behind a given pair: its key and the place of its row, or
/// that there is none. Of the index as it stands, or as is committed. Answers 0, or the number of the refusal: that
/// there is no index, that it isn't built, or want of memory; or why nothing is asked for.
#[unsafe(no_mangle)]
pub extern "C" fn nsf_next(
    alloc: Global,
    handle: &mut Handle,
    bounds: &Bounds,
    from: &[u8],
    to: &[u8],
    behind: &[u8],
    told: &mut Told,
) -> u32
    requires { IsOpen handle.old }
    ensures { Reads (λ store. IsShown bounds.now from.now to.now behind.now result told.new (core_in store)
        ⊎ IsNotShown bounds.now from.now to.now behind.now result told.new) handle.old handle.new }
{
    let held = handle.take(alloc);
    let status = match bounds.sought(from, to, behind) {
        Ok(sought) => tell(first_of(alloc, held.store.store().core(), &sought), told),
        Err(number) => {
            *told = refused();
            number
        }
    };
    handle.put(held);
    status
}

/// Tells the last visible pair of a range, or the last one before a given pair: its key and the place of its row, or
/// that there is none. Of the index as it stands. Answers as `nsf_next` does, and 24 where what is committed is asked
/// for.
#[unsafe(no_mangle)]
pub extern "C" fn nsf_previous(
    alloc: Global,
    handle: &mut Handle,
    bounds: &Bounds,
    from: &[u8],
    to: &[u8],
    ahead: &[u8],
    told: &mut Told,
) -> u32
    requires { IsOpen handle.old }
    ensures { Reads (λ store. IsShownBack bounds.now from.now to.now ahead.now result told.new (core_in store)
        ⊎ IsNotShownBack bounds.now from.now to.now ahead.now result told.new) handle.old handle.new }
{
    let held = handle.take(alloc);
    let status = match bounds.sought_back(from, to, ahead) {
        Ok(sought) => tell(last_of(alloc, held.store.store().core(), &sought), told),
        Err(number) => {
            *told = refused();
            number
        }
    };
    handle.put(held);
    status
}

/// Tells the committed row at a place, or that there is none. Answers 0, or 10 where no page has the slot.
#[unsafe(no_mangle)]
pub extern "C" fn nsf_get_committed(
    alloc: Global,
    handle: &mut Handle,
    place: &Spot,
    told: &mut Told,
) -> u32
    requires { IsOpen handle.old }
    ensures { Reads (λ store. IsCommittedTold place.now result told.new (core_in store)) handle.old handle.new }
{
    let held = handle.take(alloc);
    let status = match rid_of(place.page, place.slot) {
        Ok(rid) => {
            *told = row_told(&get_committed(held.store.store().core(), rid));
            0
        }
        Err(number) => {
            *told = refused();
            number
        }
    };
    handle.put(held);
    status
}
