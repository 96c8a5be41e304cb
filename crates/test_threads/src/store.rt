//! A store from its opening to the end of its threads.
ghost use Rattle.std.specs.Prelude.{◌≡◌, IfOk};
ghost use Rattle.threads_lifetime.specs.Gathered.{AreAllSeats};
ghost use Rattle.shared.specs.Seats.{AreNewSeats};

use records::Error;
use sector_device::Device;
use shared::{Group, Kept, Memory, Shared};
use std::alloc::Global;
use std::sync::Wait;
use threads_lifetime::{Closed, OpenError, OpenStore, Parts, finish, open_store};

/// Opens the store on the device, for so many seats. `Stopped` where what the device holds is not sound.
pub(crate) fn open<D: Device, A: Memory>(
    alloc: A,
    device: D,
    seats: usize,
) -> Result<OpenStore<D, A>, (Error, D)> {
    match open_store(alloc, device, seats) {
        Ok(store) => Ok(store),
        Err((OpenError::Refused(error), device)) => Err((error, device)),
        Err((OpenError::Unsound, device)) => Err((Error::Stopped, device)),
        Err((OpenError::NoThread, device)) => Err((Error::Stopped, device)),
    }
}

/// Hands out what the threads share, and the parts of each.
pub(crate) fn start<B: Group, D: Device, A: Memory>(
    store: OpenStore<D, A>,
) -> Result<(Shared<B, A>, Parts<B, D, A, Kept>), (Error, D)>
    requires { store.site ≡ B.site }
    ensures { IfOk result (λ r. AreNewSeats B.site.board B.site.seats r.1.seats.items) }
{
    store.start::<B, Kept>()
}

/// The end of all threads: what is left then, or why not all is written out, with the device.
pub(crate) type Finished<D, A = Global> = Result<Closed<D, A>, (Error, D)>;

/// Takes all back, and writes out what was made.
pub(crate) fn take_back<B: Group, D: Device, A: Memory, R: Wait>(
    rt: &R,
    alloc: A,
    shared: Shared<B, A>,
    parts: Parts<B, D, A, Kept>,
) -> Finished<D, A>
    requires { AreAllSeats B.site.seats parts.seats.items }
{
    finish(rt, alloc, shared, parts, Vec::new(alloc))
}
