//! What a store holds is copied out.
ghost use Rattle.nsf_c.specs.Calls.{CopiesOut, IsStoreKept, content_of};
ghost use Rattle.nsf_c.specs.Handles.{IsOpen, Reads};

use crate::handle::Handle;
use sector_device::SECTOR_SIZE;
use std::alloc::Global;

// Puts the sectors from the first on, as many as there are and as there is room for. Answers how many.
fn copy_out(content: &[[u8; SECTOR_SIZE]], first: u64, room: &mut [[u8; SECTOR_SIZE]]) -> u64
    ensures { CopiesOut content.now first result room.old room.new }
{
    let from = content.len().min(first as usize);
    let count = room.len().min(content.len() - from);
    room[..count].copy_from_slice(&content[from..from + count]);
    count as u64
}

/// Copies the sectors of the store's device out, from this number on: as many as there are and as there is room for.
/// Answers how many. All of them, with no other call between, are bytes that [`crate::nsf_open`] opens as what a crash
/// may leave now: a prefix of what was committed, with everything that a horizon told of.
#[unsafe(no_mangle)]
pub extern "C" fn nsf_save(
    alloc: Global,
    handle: &mut Handle,
    first: u64,
    room: &mut [[u8; SECTOR_SIZE]],
) -> u64
    requires { IsOpen handle.old }
    ensures copied { Reads (λ store. CopiesOut (content_of store) first result room.old room.new) handle.old
        handle.new }
    ensures kept { Reads (λ store. IsStoreKept store (content_of store)) handle.old handle.new }
{
    let held = handle.take(alloc);
    let count = copy_out(held.store.store().device().content(), first, room);
    handle.put(held);
    count
}
