//! Requests that are made until all is done: an image that is taken as one call, and a flush of every record.
ghost use Rattle.std.specs.Prelude.{◌≡◌, Option};
ghost use Rattle.restart.specs.Repeated.{asks_again, is_further, is_on_the_way};

use crate::{Engine, Event, Reply};
use sector_device::Device;
use std::alloc::Allocator;

// Whether more records are synced up to this number than a flush before it has told, if there was one.
fn is_further(told: Option<u64>, number: u64) -> bool
    ensures { result ≡ is_further told number }
{
    match told {
        Some(before) => before < number,
        None => true,
    }
}

// Whether a flush with this reply is followed by another: not all up to the last are synced yet, and more than the
// flush before it has told.
fn asks_again<A: Allocator>(last: u64, told: Option<u64>, reply: &Reply<A>) -> bool
    ensures { result ≡ asks_again last told reply.now }
{
    match reply {
        Reply::Horizon(number) => *number < last && is_further(told, *number),
        _ => false,
    }
}

// Whether a copy with this reply is followed by another: the image isn't current yet.
fn is_on_the_way<A: Allocator>(reply: &Reply<A>) -> bool
    ensures { result ≡ is_on_the_way reply.now }
{
    match reply {
        Reply::Copied | Reply::Again => true,
        _ => false,
    }
}

impl<D: Device, A: Allocator + Copy> Engine<D, A> {
    ghost use Rattle.restart.specs.Parts.{core_of};
    ghost use Rattle.restart.specs.Repeated.{FlushesAll, FlushesBehindImage, FlushesOnce, TakesImage};

    /// Copies until an image is current, or a copy is refused: at most `pages + entries div 128 + 3` copies, fewer
    /// where an image is under way already. The reply is that of the last one, `Flipped` or `Refused`. A crash at any
    /// moment leaves what one within a copy of these leaves.
    pub fn take_image(&mut self) -> Reply<A>
        ensures { TakesImage D.past_of D.failures result self.old self.new }
    {
        'copies: loop {
            let reply = self.serve(Event::Copy);
            if !is_on_the_way(&reply) {
                return reply;
            }
        }
    }

    // Takes an image, and flushes once behind it.
    fn flush_behind_image(&mut self) -> Reply<A>
        ensures { FlushesBehindImage D.past_of D.failures result self.old self.new }
    {
        match self.take_image() {
            Reply::Flipped(_) => self.serve(Event::Flush),
            refused => refused,
        }
    }

    // Flushes once, behind an image where the log is full.
    fn flush_once(&mut self) -> Reply<A>
        ensures { FlushesOnce D.past_of D.failures result self.old self.new }
    {
        match self.serve(Event::Flush) {
            Reply::LogFull => self.flush_behind_image(),
            reply => reply,
        }
    }

    /// Flushes until every record made is synced, or a flush or a copy is refused. Where the log is full, an image is
    /// taken and made current, and it goes on. The reply is that of the last flush, or of the copy that was refused. A
    /// crash at any moment leaves what one within a flush or a copy of these leaves.
    pub fn flush_all(&mut self) -> Reply<A>
        ensures { FlushesAll D.past_of D.failures (core_of self.old).last result self.old self.new }
    {
        let last = self.core().last();
        let mut told = None;
        'flushes: loop {
            let reply = self.flush_once();
            if !asks_again(last, told, &reply) {
                return reply;
            }
            told = Some(self.horizon());
        }
    }
}
