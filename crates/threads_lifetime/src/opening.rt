//! A store opened for many threads.
ghost use Rattle.std.specs.Prelude.{◌≡◌, ◌<◌, false, Err, IfErr, IfOk};
ghost use Rattle.record_values.specs.declared.error.Error.TheVariants.{NoMemory, TooManyTxns};
ghost use Rattle.threads_lifetime.specs.declared.refusal.OpenError.TheVariants.{Refused};
ghost use Rattle.shared.specs.Seats.{AreNewSeats, HasSeenNothing};
ghost use Rattle.store_writer.specs.Parts.{device_of};
ghost use Rattle.threads_lifetime.specs.Openings.{IsNewFlusher, IsNotShared, IsOpenedOver};

use crate::refusal::{OpenError, SEATS_MAX};
use crate::store::OpenStore;
use records::Error;
use restart::restart;
use sector_device::Device;
use shared::{FirstParts, Group, Keeping, Memory, Parts, Shared, open};
use threads_flusher::FlushPart;

/// Opens the store on the device, as `restart` does, for so many threads with a seat each.
///
/// Any store may be opened so. What it opens with is tested: where a core may not begin with it, the answer is
/// `Unsound`, and nothing is lost. A device that was formatted, and then written by this engine, or by threads over it,
/// or by an opening that was cut off, is never answered so (`format_store`, `left_by_a_run`, `left_by_threads`,
/// `left_by_an_opening`, `sound_or_not`).
///
/// `TooManyTxns` where there are to be more than 16 seats, which is as many as transactions may be active. The other
/// errors are those of `restart`, and `NoMemory` behind it of a store that is sound. So of an unsound one `NoMemory`
/// comes only where there was none to read it, and nothing was written; and no other answer fits what the device holds
/// (`told_of_a_store`). With any error the device is given back, and gives what it gave; a crash at any moment of the
/// call leaves what one before could, or what gives the same (`refused`). So it may be opened again.
pub fn open_store<D: Device, A: Memory>(
    alloc: A,
    device: D,
    seats: usize,
) -> Result<OpenStore<D, A>, (OpenError, D)>
    ensures opened { IfOk result (IsOpenedOver D.past_of D.failures device seats) }
    ensures refused { IfErr result (λ r. IsNotShared D.past_of D.failures device seats r.1 r.0) }
    ensures many { 16 < seats → result ≡ Err (Refused TooManyTxns, device) }
{
    if seats > SEATS_MAX {
        return Err((OpenError::Refused(Error::TooManyTxns), device));
    }
    let engine = match restart(alloc, device) {
        Ok(engine) => engine,
        Err((error, device)) => return Err((OpenError::Refused(error), device)),
    };
    if !engine.core().can_open() {
        return Err((OpenError::Unsound, engine.into_device()));
    }
    // No record was made yet, so none is on its way to the writer.
    let (core, records, writer) = engine.into_parts();
    drop(records);
    match open(alloc, core, seats) {
        Ok(opening) => Ok(OpenStore {
            alloc,
            opening,
            writer,
        }),
        Err(error) => Err((OpenError::Refused(error), writer.into_device())),
    }
}

impl<D: Device, A: Memory> OpenStore<D, A> {
    /// What the threads share, and what each of them has: new seats, each at its number; the part of the flusher, which
    /// has popped nothing, over the device with all of it synced, an empty log and no image under way; and the parts of
    /// the builder and the cleaner. The board begins at what is synced. `K` says whether the seats' commits are kept in
    /// memory: then `finish` gives them.
    ///
    /// The one error is `NoMemory`, and the device is given back then, as it is.
    pub fn start<B: Group, K: Keeping>(
        self,
    ) -> Result<(Shared<B, A>, Parts<B, D, A, K>), (Error, D)>
        requires names { self.site ≡ B.site }
        ensures seats { IfOk result (λ r. AreNewSeats B.site.board B.site.seats r.1.seats.items) }
        ensures flush { IfOk result (λ r. IsNewFlusher D.past_of D.marks B.site.board B.site.opened r.1.flush) }
        ensures device { IfOk result (λ r. device_of r.1.flush.writer ≡ self.device) }
        ensures build { IfOk result (λ r. r.1.build ≡ record { progress = 0; stopped = false }) }
        ensures clean { IfOk result (λ r. HasSeenNothing B.site.board r.1.clean) }
        ensures no_memory { IfErr result (λ r. r.0 ≡ NoMemory) }
        ensures back { IfErr result (λ r. r.1 ≡ self.device) }
    {
        let OpenStore {
            alloc,
            opening,
            writer,
        } = self;
        match opening.start::<B, K>() {
            Ok((shared, parts)) => {
                let FirstParts {
                    seats,
                    ends,
                    build,
                    clean,
                } = parts;
                let flush = FlushPart::new(alloc, shared.board(), ends, writer);
                let parts = Parts {
                    seats,
                    flush,
                    build,
                    clean,
                };
                Ok((shared, parts))
            }
            Err(refused) => Err((refused, writer.into_device())),
        }
    }
}
