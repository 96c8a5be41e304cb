//! An engine that served is opened for many threads.
ghost use Rattle.std.specs.Prelude.{◌≡◌, ◌<◌, Err, IfErr, IfOk};
ghost use Rattle.record_values.specs.declared.error.Error.TheVariants.{TooManyTxns};
ghost use Rattle.threads_lifetime.specs.declared.refusal.OpenError.TheVariants.{Refused};
ghost use Rattle.threads_lifetime.specs.Openings.{IsNotOpenedFrom, IsOpenedFrom};

use crate::refusal::{OpenError, SEATS_MAX};
use crate::store::OpenStore;
use records::Error;
use restart::Engine;
use sector_device::Device;
use shared::{Memory, open};

/// Opens the store of an engine that served, for so many threads with a seat each. The store opens with what the engine
/// holds, and all of that is written as a whole image, with the records that weren't flushed; an image under way is
/// given up. No sector is written but those that a copy writes (`opened`). Then commits are counted anew, and a build
/// goes on above the pair checkpointed last, as behind a restart.
///
/// `TooManyTxns` where there are to be more than 16 seats, which is as many as transactions may be active; `TxnsActive`
/// where a transaction is active; `Unsound` where a core may not begin with what the engine holds; `NoMemory`; and
/// `DeviceFailed` as of a copy. The first of them that applies is told (`told_of_an_engine`). With any of them the
/// engine is given back, and its run goes on; it is as it was, but where what it holds could not be written
/// (`refused`).
pub fn open_engine<D: Device, A: Memory>(
    alloc: A,
    engine: Engine<D, A>,
    seats: usize,
) -> Result<OpenStore<D, A>, (OpenError, Engine<D, A>)>
    ensures opened { IfOk result (IsOpenedFrom D.past_of D.failures engine seats) }
    ensures refused { IfErr result (λ r. IsNotOpenedFrom D.past_of D.failures engine seats r.1 r.0) }
    ensures many { 16 < seats → result ≡ Err (Refused TooManyTxns, engine) }
{
    if seats > SEATS_MAX {
        return Err((OpenError::Refused(Error::TooManyTxns), engine));
    }
    if engine.core().active_txns() > 0 {
        return Err((OpenError::Refused(Error::TxnsActive), engine));
    }
    if !engine.can_open() {
        return Err((OpenError::Unsound, engine));
    }
    let core = match engine.fresh_core() {
        Ok(core) => core,
        Err(error) => return Err((OpenError::Refused(error), engine)),
    };
    let opening = match open(alloc, core, seats) {
        Ok(opening) => opening,
        Err(error) => return Err((OpenError::Refused(error), engine)),
    };
    match engine.into_writer() {
        Ok(writer) => Ok(OpenStore {
            alloc,
            opening,
            writer,
        }),
        Err((error, engine)) => {
            drop(opening);
            Err((OpenError::Refused(error), engine))
        }
    }
}
