//! The sessions in halves. None of the calls but `open` takes memory, none waits, and none makes an exchange.
ghost use Rattle.std.specs.Prelude.{◌≡◌, ◌+◌, ◌<◌, length, IfOk};
ghost use Rattle.threads_sessions.specs.Values.{empty_session};
ghost use Rattle.threads_sessions.specs.Halves.{IsNew};

use crate::Session;
use crate::half::{Half, HalfMaker};
use crate::keeping::Keeping;
use crate::knowledge::Knowledge;
use crate::rule::{Change, Compare, Halve, HandOver, Make, RegistryRule, Said, TakeIn};
use atomic_table::{Seat, Shared, Table};
use std::alloc::{AllocError, Allocator, Global};
use std::marker::{Brand, Model};

/// What the halves of all sessions stand on, shared by a `&`. To a contract it is its identity, which each half names.
#[derive(Drop)]
pub struct Registry<A: Allocator = Global> {
    table: Table<Session<A>, Knowledge, (), RegistryRule, A>,
}

impl<A: Allocator> Model for Registry<A> {
    ghost use Rattle.std.specs.Prelude.{◌≡◌};
    ghost use Rattle.atomic_table.specs.Seated.{TableId, table_id_coded};

    ghost Value = { TableId };

    ghost coded = { table_id_coded };

    ghost view = { λ r. r.table.shared.table_id };

    ghost invariant = { λ r. r.table.shared.table_id.words ≡ 1 };
}

impl<A: Allocator + Copy> Registry<A> {
    fn new(alloc: A) -> Result<(Registry<A>, HalfMaker<A>), AllocError>
        ensures { IfOk result (λ r. r.1 ≡ record { table = r.0; next = 0 }) }
    {
        let (table, seat) = Table::of_words(alloc, &[0], &())?;
        Ok((Registry { table }, HalfMaker { seat }))
    }

    // Both halves of a new session.
    fn make(&self, maker: &mut HalfMaker<A>) -> (Half<A>, Half<A>)
        requires { maker.old.table ≡ self.now }
        ensures next { maker.new ≡ record maker.old { next = maker.old.next + 1 } }
        ensures one { result.0 ≡ record { table = self.now; number = maker.old.next; session = empty_session } }
        ensures other { result.1 ≡ result.0 }
    {
        let shared = &self.table.shared;
        let mut seat = shared.split_seat::<Make>(&mut maker.seat);
        let other = shared.split_seat::<Halve>(&mut seat);
        (Half { seat }, Half { seat: other })
    }

    /// A registry with this many sessions, with numbers from 0 on and nothing in them, and both halves of each.
    ///
    /// The error is that memory was refused.
    pub fn open(
        alloc: A,
        count: usize,
    ) -> Result<(Registry<A>, Vec<Half<A>, A>, Vec<Half<A>, A>), AllocError>
        ensures book { IfOk result (λ r. (length r.1.items ≡ count) × IsNew r.0 r.1.items) }
        ensures seats { IfOk result (λ r. (length r.2.items ≡ count) × IsNew r.0 r.2.items) }
    {
        let (registry, mut maker) = Registry::<A>::new(alloc)?;
        let mut book = Vec::new(alloc);
        let mut seats = Vec::new(alloc);
        for _number in 0..count {
            let (one, other) = registry.make(&mut maker);
            book.push(one)?;
            seats.push(other)?;
        }
        Ok((registry, book, seats))
    }

    /// The two halves of a session come together for a look: they show one session. Nothing changes.
    pub fn compare(&self, mine: &mut Half<A>, theirs: &mut Half<A>)
        requires mine { mine.old.table ≡ self.now }
        requires theirs { theirs.old.table ≡ self.now }
        requires number { theirs.old.number ≡ mine.old.number }
        ensures agree { theirs.old.session ≡ mine.old.session }
        ensures mine { mine.new ≡ mine.old }
        ensures theirs { theirs.new ≡ theirs.old }
    {
        let shared = &self.table.shared;
        let whole = shared.split_seat::<HandOver>(&mut mine.seat);
        shared.join_seat::<TakeIn>(&mut theirs.seat, whole);
        shared.load::<Compare>(&mut theirs.seat, 0);
        mine.seat = shared.split_seat::<Halve>(&mut theirs.seat);
    }

    /// The two halves of a session come together: they showed one session, and from now on they show this one.
    pub fn change<K: Keeping>(
        &self,
        mine: &mut Half<A>,
        theirs: &mut Half<A>,
        session: &Session<A, K>,
    )
        requires mine { mine.old.table ≡ self.now }
        requires theirs { theirs.old.table ≡ self.now }
        requires number { theirs.old.number ≡ mine.old.number }
        ensures agree { theirs.old.session ≡ mine.old.session }
        ensures mine { mine.new ≡ record mine.old { session = session.now } }
        ensures theirs { theirs.new ≡ record theirs.old { session = session.now } }
    {
        let shared = &self.table.shared;
        let whole = shared.split_seat::<HandOver>(&mut mine.seat);
        shared.join_seat::<TakeIn>(&mut theirs.seat, whole);
        show::<Brand, A, K>(shared, &mut theirs.seat, session);
        mine.seat = shared.split_seat::<Halve>(&mut theirs.seat);
    }
}

// Two halves that are joined in one token showed one session, and show this one from now on.
fn show<N: Said, A: Allocator, K: Keeping>(
    shared: &Shared<Session<A>, Knowledge, (), RegistryRule>,
    both: &mut Seat<Session<A>, Knowledge>,
    session: &Session<A, K>,
)
    requires said { session.now ≡ N.session }
    requires table { both.old.table_id ≡ shared.now.table_id }
    requires words { 0 < shared.now.table_id.words }
    requires both { both.old.me.0.parts ≡ 2 }
    ensures table { both.new.table_id ≡ both.old.table_id }
    ensures agree { both.old.me.0.beside ≡ both.old.me.0.session }
    ensures shown { both.new.me
        ≡ (record both.old.me.0 { session = session.now; beside = session.now }, both.old.me.1) }
{
    shared.load::<Change<N>>(both, 0);
}
