//! The commits of a session, kept in memory or told to contracts alone, and what it did to the index.
ghost use Rattle.std.specs.Prelude.{◌≡◌, ◌++◌, ◌∷◌, [], IfErr, IfSome, OnErr, OnOk, is_some, true};
ghost use Rattle.record_values.specs.declared.error.Error.TheVariants.{NoMemory};
ghost use Rattle.threads_sessions.specs.History.{HasRoomIf, commits_of};

use crate::commit::Commit;
use crate::keeping::Keeping;
use crate::turn::Turn;
use ghost_list::GhostList;
use model::Write;
use records::Error;
use std::alloc::Allocator;
use std::marker::PhantomData;

// The commits stand in the list where they are kept, and else where they are told.
#[derive(Drop)]
pub(crate) struct History<A: Allocator, K: Keeping> {
    pub(crate) list: Vec<Commit<A>, A>,
    pub(crate) told: GhostList<Commit<A>>,
    pub(crate) turns: GhostList<Turn>,
    pub(crate) keeping: PhantomData<K>,
}

// Tells of one commit more, and answers the list in which it had its rows.
fn tell<A: Allocator>(told: &mut GhostList<Commit<A>>, commit: Commit<A>) -> Vec<Write, A>
    ensures { told.new.items ≡ told.old.items ++ commit ∷ [] }
{
    *told = told.and(&commit);
    commit.into_writes()
}

impl<A: Allocator, K: Keeping> History<A, K> {
    // Nothing was done yet. It takes no memory.
    pub(crate) fn new(alloc: A) -> History<A, K>
        ensures commits { commits_of K.kept result ≡ [] }
        ensures turns { result.turns.items ≡ [] }
    {
        History {
            list: Vec::new(alloc),
            told: GhostList::new(),
            turns: GhostList::new(),
            keeping: PhantomData,
        }
    }

    // Makes room for one commit more, where they are kept. Else it is never refused.
    pub(crate) fn reserve(&mut self) -> Result<(), Error>
        ensures commits { commits_of K.kept self.new ≡ commits_of K.kept self.old }
        ensures turns { self.new.turns.items ≡ self.old.turns.items }
        ensures room { OnOk result (HasRoomIf K.kept self.new) }
        ensures no_memory { IfErr result (λ e. e ≡ NoMemory) }
        ensures kept { OnErr result (K.kept ≡ true) }
    {
        if K::keeps() {
            self.list.reserve(1)?;
        }
        Ok(())
    }

    // Adds a commit. Where it isn't kept, the list in which it had its rows may be used again.
    pub(crate) fn push(&mut self, commit: Commit<A>) -> Option<Vec<Write, A>>
        requires { HasRoomIf K.kept self.old }
        ensures commits { commits_of K.kept self.new ≡ commits_of K.kept self.old ++ commit ∷ [] }
        ensures turns { self.new.turns.items ≡ self.old.turns.items }
    {
        if K::keeps() {
            self.list.push_reserved(commit);
            None
        } else {
            Some(tell(&mut self.told, commit))
        }
    }

    // Adds what was done to the index.
    pub(crate) fn note(&mut self, turn: Turn)
        ensures commits { commits_of K.kept self.new ≡ commits_of K.kept self.old }
        ensures turns { self.new.turns.items ≡ self.old.turns.items ++ turn ∷ [] }
    {
        self.turns = self.turns.and(&turn);
    }

    // The commits, where they are kept.
    pub(crate) fn into_list(self) -> Option<Vec<Commit<A>, A>>
        ensures given { is_some result ≡ K.kept }
        ensures commits { IfSome result (λ v. v.items ≡ commits_of K.kept self) }
    {
        let History {
            list,
            told: _,
            turns: _,
            keeping: _,
        } = self;
        if K::keeps() {
            Some(list)
        } else {
            drop(list);
            None
        }
    }
}
