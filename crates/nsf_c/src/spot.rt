//! Places of rows, as C has them.
ghost use Rattle.std.specs.Prelude.{◌≡◌, ◌≤◌, ◌<◌, length};
ghost use Rattle.nsf_c.specs.Spots.{spot_of, IsFilled, FillsWith};

use records::Rid;
use restart::Reply;
use std::alloc::Global;

/// A place of a row.
#[repr(C)]
#[derive(Clone, Copy)]
pub struct Spot {
    pub page: u32,
    pub slot: u16,
}

fn spot_of(rid: Rid) -> Spot
    ensures { result ≡ spot_of rid }
{
    Spot {
        page: rid.page,
        slot: rid.slot,
    }
}

// Puts as many of the places as there is room for.
fn fill(spots: &mut [Spot], rids: &[Rid])
    ensures { IsFilled rids.now spots.old spots.new }
{
    for i in 0..spots.len().min(rids.len()) {
        spots[i] = spot_of(rids[i]);
    }
}

/// Puts the places that a search found, as many as there is room for. Behind them, and where the reply is another, what
/// was there stays.
pub(crate) fn put_found(spots: &mut [Spot], reply: &Reply<Global>)
    ensures { FillsWith reply.now spots.old spots.new }
{
    if let Reply::Found(rids) = reply {
        fill(spots, rids);
    }
}
