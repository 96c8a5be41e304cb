//! A session, and what it tells.
ghost use Rattle.std.specs.Prelude.{◌≡◌, ◌==◌, length, map, IfSome, is_some};
ghost use Rattle.threads_sessions.specs.Values.{SessionValue, empty_session, is_active, is_ready, is_unfinished};

use crate::active::{ActiveTxn, place_of};
use crate::commit::Commit;
use crate::history::History;
use crate::keeping::{Keeping, Told};
use model::Write;
use records::Txn;
use std::alloc::{Allocator, Global};
use std::marker::Model;

/// What a seat knows of its own transactions, and its history. To a contract it is a `SessionValue`.
#[derive(Drop)]
pub struct Session<A: Allocator = Global, K: Keeping = Told> {
    pub(crate) alloc: A,
    pub(crate) history: History<A, K>,
    pub(crate) active: Vec<ActiveTxn<A>, A>,
    // a list of rows that a transaction had, whose memory is used again
    pub(crate) spare: Option<Vec<Write, A>>,
}

impl<A: Allocator, K: Keeping> Model for Session<A, K> {
    ghost use Rattle.std.specs.Prelude.{map};
    ghost use Rattle.threads_sessions.specs.Values.{SessionValue};
    ghost use Rattle.threads_sessions.specs.Active.{active_value};
    ghost use Rattle.threads_sessions.specs.History.{commits_of};

    ghost Value = { SessionValue };

    ghost view = { λ s. record {
      commits = commits_of K.kept s.history;
      turns = s.history.turns.items;
      active = map active_value s.active.items;
    } };
}

impl<A: Allocator + Copy, K: Keeping> Session<A, K> {
    /// A session without commit, creation or transaction. It takes no memory.
    pub fn new(alloc: A) -> Session<A, K>
        ensures { result ≡ empty_session }
    {
        Session {
            alloc,
            history: History::new(alloc),
            active: Vec::new(alloc),
            spare: None,
        }
    }

    /// The commits, in the order in which they were made, where they are kept.
    pub fn into_commits(self) -> Option<Vec<Commit<A>, A>>
        ensures given { is_some result ≡ K.kept }
        ensures commits { IfSome result (λ v. v.items ≡ self.commits) }
    {
        let Session {
            alloc: _,
            history,
            active: _,
            spare: _,
        } = self;
        history.into_list()
    }

    /// Whether the seat has no transaction.
    pub fn is_idle(&self) -> bool
        ensures { result ≡ (length self.now.active == 0) }
    {
        self.active.is_empty()
    }

    /// Whether the transaction is one of the seat's.
    pub fn is_active(&self, txn: Txn) -> bool
        ensures { result ≡ is_active self.now txn }
    {
        place_of(&self.active, txn).is_some()
    }

    /// Whether the transaction may begin a change or commit: it is one of the seat's, has no change to finish, and
    /// isn't rolling back.
    pub fn ready(&self, txn: Txn) -> bool
        ensures { result ≡ is_ready self.now txn }
    {
        match place_of(&self.active, txn) {
            Some(i) => {
                let one = &self.active[i];
                one.unfinished.is_none() && !one.rolling
            }
            None => false,
        }
    }

    /// Whether the transaction is one of the seat's and has a change to finish.
    pub fn unfinished(&self, txn: Txn) -> bool
        ensures { result ≡ is_unfinished self.now txn }
    {
        match place_of(&self.active, txn) {
            Some(i) => self.active[i].unfinished.is_some(),
            None => false,
        }
    }
}
