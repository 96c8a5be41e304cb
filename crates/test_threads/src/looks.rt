// Look-ups behind a record that the queue had refused.
use crate::calls::Calls;
use records::{Error, Key, Rid};
use std::alloc::Global;
use test_memory::Refusing;

/// The end of the queue that the flusher has.
pub trait QueueEnd {
    /// The number of the last record that came to the queue. All that waits there is taken, and nothing is pushed.
    fn last(&mut self) -> Result<u64, Error>;
}

// So many commits fill more than a block of the queue.
const COMMITS: u32 = 80;

// No commit makes more allocations than these.
const ALLOCATIONS: u64 = 8;

// A look-up.
#[derive(Clone, Copy)]
enum Look {
    Get,
    Find,
    Life,
}

// Makes the look-up, whose answer is not asked for.
fn make_look<C: Calls>(seat: &mut C, kind: Look) -> Result<(), Error> {
    match kind {
        Look::Get => {
            seat.get(Rid { page: 0, slot: 0 });
        }
        Look::Find => {
            let _ = seat.find_one(Key::new(b"ant")?);
        }
        Look::Life => {
            seat.life();
        }
    }
    Ok(())
}

// Commits a transaction without a change. The last allocation of the commit is refused, where it makes one. Answers the
// number of its record.
fn commit_short<C: Calls>(seat: &mut C, memory: &Refusing<Global>) -> Result<u64, Error> {
    let txn = seat.begin()?;
    for allowed in 0..ALLOCATIONS {
        memory.refuse_after(allowed);
        let committed = seat.commit(txn);
        memory.refuse_after(u64::MAX);
        match committed {
            Err(Error::NoMemory) => {}
            Err(error) => return Err(error),
            Ok(ticket) => return Ok(ticket.record.get()),
        }
    }
    Err(Error::NoMemory)
}

// Makes commits until the queue refuses a record. Whether that record comes to the queue by a look-up behind it.
fn pushes<C: Calls, Q: QueueEnd>(
    seat: &mut C,
    queue: &mut Q,
    memory: &Refusing<Global>,
    kind: Look,
) -> Result<bool, Error> {
    for _turn in 0..COMMITS {
        let record = commit_short(seat, memory)?;
        if queue.last()? < record {
            make_look(seat, kind)?;
            return Ok(queue.last()? == record);
        }
    }
    Ok(false)
}

// Whether the calls that make no step of the core take no memory: they are made where the next allocation would be
// refused. The last of them asks all to stop.
fn takes_none<C: Calls>(seat: &mut C, memory: &Refusing<Global>) -> Result<bool, Error> {
    let ticket = seat.create_index()?;
    let txn = seat.begin()?;
    let refused = memory.refused();
    memory.refuse_after(0);
    let is_safe = seat.is_acked(ticket);
    seat.progress();
    let is_ready = seat.ask_to_stop(txn);
    memory.refuse_after(u64::MAX);
    seat.commit(txn)?;
    Ok(memory.refused() == refused && is_ready && !is_safe)
}

/// Makes each look-up behind a record that the queue had refused, and then the calls that take no memory. Whether each
/// record comes to the queue, and none is refused.
pub(crate) fn look_all<C: Calls, Q: QueueEnd>(
    seat: &mut C,
    queue: &mut Q,
    memory: &Refusing<Global>,
) -> Result<bool, Error> {
    for kind in [Look::Get, Look::Find, Look::Life] {
        if !pushes(seat, queue, memory, kind)? {
            return Ok(false);
        }
    }
    takes_none(seat, memory)
}
