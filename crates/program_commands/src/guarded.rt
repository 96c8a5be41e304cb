//! A store whose commits are refused once its device is known to have failed.
ghost use Rattle.std.specs.Prelude.{◌≡◌, false};
ghost use Rattle.program_commands.specs.Guarded.{tells_failure};

use crate::store::Store;
use records::Error;
use restart::{Event, Reply};
use sector_device::Device;
use std::alloc::Global;

/// A store that refuses each commit with `DeviceFailed` once a flush or a copy of it was: what is committed then can't
/// become safe before the store is opened again.
#[derive(Drop)]
pub struct GuardedStore<D: Device> {
    store: Store<D>,
    // whether a reply told that the device has failed
    has_failed: bool,
}

// Whether the reply tells that the device has failed.
fn tells_failure(reply: &Reply<Global>) -> bool
    ensures { result ≡ tells_failure reply.now }
{
    matches!(reply, Reply::Refused(Error::DeviceFailed))
}

impl<D: Device> GuardedStore<D> {
    ghost use Rattle.program_commands.specs.Guarded.{FlushesGuarded, Notes, ServesGuarded, TakesImageGuarded};
    ghost use Rattle.program_commands.specs.Guarded.{is_too_late, knows_failure, store_of};

    /// The store, of which no failure is known yet.
    pub fn new(store: Store<D>) -> Self
        ensures store { store_of result ≡ store }
        ensures sound { knows_failure result ≡ false }
    {
        GuardedStore {
            store,
            has_failed: false,
        }
    }

    /// The store, to be looked at.
    pub fn store(&self) -> &Store<D>
        ensures { result.now ≡ store_of self.now }
    {
        &self.store
    }

    /// The store, which is not guarded any more.
    pub fn into_store(self) -> Store<D>
        ensures { result ≡ store_of self }
    {
        self.store
    }

    // Notes whether the reply tells that the device has failed.
    fn note(&mut self, reply: &Reply<Global>)
        ensures same { store_of self.new ≡ store_of self.old }
        ensures noted { Notes reply.now self.old self.new }
    {
        self.has_failed = self.has_failed || tells_failure(reply);
    }

    // Whether the event is a commit that comes behind a known failure.
    fn is_too_late(&self, event: &Event) -> bool
        ensures { result ≡ is_too_late event.now self.now }
    {
        match event {
            Event::Commit { .. } => self.has_failed,
            _ => false,
        }
    }

    /// Serves one event; a commit is refused where a failure of the device is known.
    pub fn serve(&mut self, event: Event) -> Reply<Global>
        ensures { ServesGuarded D.past_of D.failures event result self.old self.new }
    {
        if self.is_too_late(&event) {
            return Reply::Refused(Error::DeviceFailed);
        }
        let reply = self.store.serve(event);
        self.note(&reply);
        reply
    }

    /// Flushes as [`Store::flush`] does.
    pub fn flush(&mut self) -> Reply<Global>
        ensures { FlushesGuarded D.past_of D.failures result self.old self.new }
    {
        let reply = self.store.flush();
        self.note(&reply);
        reply
    }

    /// Takes an image as [`Store::take_image`] does.
    pub fn take_image(&mut self) -> Reply<Global>
        ensures { TakesImageGuarded D.past_of D.failures result self.old self.new }
    {
        let reply = self.store.take_image();
        self.note(&reply);
        reply
    }
}
