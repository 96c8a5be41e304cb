//! The index is created and dropped beside busy seats: these wait meanwhile before they begin.
ghost use Rattle.std.specs.Prelude.{◌≡◌, IfOk, OnErr};
ghost use Rattle.core_model.specs.Events.{Event};
ghost use Rattle.core_parts.specs.Replies.{reply_by, reply_of_ticket};
ghost use Rattle.threads_sessions.specs.Steps.{with_turn};
ghost use Rattle.threads_sessions.specs.declared.turn.Turn.TheVariants.{Created, Dropped};
ghost use Rattle.shared.specs.Served.{WasServedTo};

use crate::seat::Seat;
use crate::shared::Shared;
use locked_core::{Group, Memory};
use nsf_core::Ticket;
use records::Error;
use std::sync::Wait;
use std::sync::atomic::{AtomicU64, Ordering};
use std::time::Duration;
use threads_sessions::Keeping;

// A sleep is no longer than so many microseconds; and where it was cut short so often, that counts as one.
const LONGEST_SLEEP: u64 = 1_000;

const WAKES_A_SLEEP: u32 = 64;

/// How the calls that wait until no transaction is active, and those that begin one, know of each other. No contract
/// rests on it: each sleep ends by itself, and whoever wakes up looks again.
#[derive(Drop)]
pub(crate) struct Quiet {
    // How many calls wait.
    wanted: AtomicU64,
    // It rises where a transaction may have ended while a call waits, and where a call has ended.
    changes: AtomicU64,
}

impl Quiet {
    /// No call waits.
    pub(crate) fn unwanted() -> Quiet {
        Quiet {
            wanted: AtomicU64::new(0),
            changes: AtomicU64::new(0),
        }
    }

    fn is_wanted(&self) -> bool {
        self.wanted.load(Ordering::SeqCst) > 0
    }

    fn changes(&self) -> u64 {
        self.changes.load(Ordering::SeqCst)
    }

    // Wakes all that sleep here.
    fn ring(&self) {
        self.changes.fetch_add(1, Ordering::SeqCst);
        self.changes.wake_all();
    }

    // Sleeps until there is a change since this one, or for a short while; answers whether there is.
    fn sleep<R: Wait>(&self, rt: &R, changes: u64) -> bool {
        self.changes.park_timeout(
            rt,
            (changes & 0xffff_ffff) as u32,
            Duration::from_micros(LONGEST_SLEEP),
        );
        self.changes() != changes
    }

    /// Wakes who waits until no transaction is active: one may have ended.
    pub(crate) fn look_again(&self) {
        if self.is_wanted() {
            self.ring();
        }
    }

    fn want(&self) -> Wanted<'_> {
        self.wanted.fetch_add(1, Ordering::SeqCst);
        Wanted { quiet: self }
    }
}

// That a call waits. It can't be dropped: who wants quiet leaves, or doesn't compile.
struct Wanted<'q> {
    quiet: &'q Quiet,
}

impl Wanted<'_> {
    // The others go on.
    fn leave(self) {
        let Wanted { quiet } = self;
        quiet.wanted.fetch_sub(1, Ordering::SeqCst);
        quiet.ring();
    }
}

// How much longer a call waits: so many sleeps, and how often the next one was cut short.
#[derive(Drop)]
struct Patience {
    sleeps: u32,
    wakes: u32,
}

impl Patience {
    fn new(millis: u32) -> Patience {
        Patience {
            sleeps: millis,
            wakes: 0,
        }
    }

    fn is_over(&self) -> bool {
        self.sleeps == 0
    }

    // Counts a sleep, which was cut short or not.
    fn count(&mut self, was_short: bool) {
        self.wakes = self.wakes.saturating_add(1);
        if !was_short || self.wakes >= WAKES_A_SLEEP {
            self.wakes = 0;
            self.sleeps = self.sleeps.saturating_sub(1);
        }
    }
}

impl<B: Group, A: Memory> Shared<B, A> {
    // Waits while another seat waits until no transaction is active, unless the seat has one itself.
    pub(crate) fn give_way<R: Wait, K: Keeping>(&self, rt: &R, seat: &Seat<B, A, K>) {
        if !seat.is_idle() {
            return;
        }
        for _ in rt.forever() {
            let changes = self.quiet.changes();
            if !self.quiet.is_wanted() {
                return;
            }
            self.quiet.sleep(rt, changes);
        }
    }

    /// Creates the index as soon as no transaction is active. From the call on a seat without a transaction waits in
    /// `begin`, and begins it when this call has ended; a seat that has one may begin more. `put`, `remove` and
    /// `replace` don't wait, since they leave none active.
    ///
    /// It sleeps so often as given, for a millisecond each at the most. Sixty-four sleeps that were cut short count as
    /// one: where others end transactions all the while, it may wait so much longer. (No clause says any of this.)
    ///
    /// The refusals are those of `create_index`: `TxnsActive` where a transaction was active to the end. After a
    /// refusal the seat is as before.
    pub fn create_index_when_quiet<R: Wait, K: Keeping>(
        &self,
        rt: &R,
        seat: &mut Seat<B, A, K>,
        millis: u32,
    ) -> Result<Ticket, Error>
        ensures served { ∥ WasServedTo B.site.opened seat.old.number seat.old.session Event.Create
            (reply_by reply_of_ticket result) ∥₁ }
        ensures ok { IfOk result (λ ticket. seat.new ≡ record seat.old
            { session = with_turn seat.old.session (Created ticket.«record») }) }
        ensures refused { OnErr result (seat.new ≡ seat.old) }
    {
        let wanted = self.quiet.want();
        let created = self.create_patiently(rt, seat, millis);
        wanted.leave();
        created
    }

    // Tries to create the index until no transaction is active.
    fn create_patiently<R: Wait, K: Keeping>(
        &self,
        rt: &R,
        seat: &mut Seat<B, A, K>,
        millis: u32,
    ) -> Result<Ticket, Error>
        ensures served { ∥ WasServedTo B.site.opened seat.old.number seat.old.session Event.Create
            (reply_by reply_of_ticket result) ∥₁ }
        ensures ok { IfOk result (λ ticket. seat.new ≡ record seat.old
            { session = with_turn seat.old.session (Created ticket.«record») }) }
        ensures refused { OnErr result (seat.new ≡ seat.old) }
    {
        let mut patience = Patience::new(millis);
        for _ in rt.forever() {
            let changes = self.quiet.changes();
            let created = self.create_index(rt, seat);
            let Err(Error::TxnsActive) = created else {
                return created;
            };
            if patience.is_over() {
                return created;
            }
            patience.count(self.quiet.sleep(rt, changes));
        }
        unreachable!()
    }

    /// Drops the index as soon as no transaction is active. It waits as `create_index_when_quiet` does.
    ///
    /// The refusals are those of `drop_index`: `TxnsActive` where a transaction was active to the end. After a refusal
    /// the seat is as before.
    pub fn drop_index_when_quiet<R: Wait, K: Keeping>(
        &self,
        rt: &R,
        seat: &mut Seat<B, A, K>,
        millis: u32,
    ) -> Result<Ticket, Error>
        ensures served { ∥ WasServedTo B.site.opened seat.old.number seat.old.session Event.Drop
            (reply_by reply_of_ticket result) ∥₁ }
        ensures ok { IfOk result (λ ticket. seat.new ≡ record seat.old
            { session = with_turn seat.old.session (Dropped ticket.«record») }) }
        ensures refused { OnErr result (seat.new ≡ seat.old) }
    {
        let wanted = self.quiet.want();
        let dropped = self.drop_patiently(rt, seat, millis);
        wanted.leave();
        dropped
    }

    // Tries to drop the index until no transaction is active.
    fn drop_patiently<R: Wait, K: Keeping>(
        &self,
        rt: &R,
        seat: &mut Seat<B, A, K>,
        millis: u32,
    ) -> Result<Ticket, Error>
        ensures served { ∥ WasServedTo B.site.opened seat.old.number seat.old.session Event.Drop
            (reply_by reply_of_ticket result) ∥₁ }
        ensures ok { IfOk result (λ ticket. seat.new ≡ record seat.old
            { session = with_turn seat.old.session (Dropped ticket.«record») }) }
        ensures refused { OnErr result (seat.new ≡ seat.old) }
    {
        let mut patience = Patience::new(millis);
        for _ in rt.forever() {
            let changes = self.quiet.changes();
            let dropped = self.drop_index(rt, seat);
            let Err(Error::TxnsActive) = dropped else {
                return dropped;
            };
            if patience.is_over() {
                return dropped;
            }
            patience.count(self.quiet.sleep(rt, changes));
        }
        unreachable!()
    }
}
