//! The commits of all seats, by number.
ghost use Rattle.std.specs.Prelude.{◌≡◌, ◌<◌, ℕ, List, false, true, length, map, reverse, IfErr, IfNone, IfOk, IfSome};
ghost use Rattle.std.specs.Prelude.{Some, is_some, slice_get};
ghost use Rattle.record_values.specs.declared.error.Error.TheVariants.{NoMemory};
ghost use Rattle.locked_core.specs.Locked.{locked_of};
ghost use Rattle.threads_register.specs.Register.{AreAllCommits};
ghost use Rattle.threads_sessions.specs.Values.{CommitValue, SessionValue};
ghost use Rattle.threads_lifetime.specs.Gathered.{AreSeen, TakesFrom, commits_of, heads_with, is_numbered, lists_of};
ghost use Rattle.threads_lifetime.specs.Gathered.{sessions_of};

use locked_core::Locked;
use records::Error;
use shared::{Group, Keeping, Memory, Seat};
use std::sync::Wait;
use threads_sessions::{Commit, Registry};

// Whether the commit has this number.
fn is_numbered<A: Memory>(commit: &Commit<A>, number: u64) -> bool
    ensures { result ≡ is_numbered number commit.now.ticket.commit }
{
    match commit.ticket().commit {
        Some(its) => its == number,
        None => false,
    }
}

// Whether the next commit has this number. The next one is at the end, so that it is taken out in one step.
fn heads<A: Memory>(list: &[Commit<A>], number: u64) -> bool
    ensures { result ≡ heads_with number (reverse list.now) }
{
    match list.split_last() {
        Some((commit, _)) => is_numbered(commit, number),
        None => false,
    }
}

// The first list whose next commit has this number.
fn find_next<A: Memory>(lists: &[Vec<Commit<A>, A>], number: u64) -> Option<usize>
    ensures some { IfSome result (λ k. (list : List CommitValue) × (slice_get (lists_of lists.now) k ≡ Some list)
        × (heads_with number list ≡ true)) }
    ensures within { IfSome result (λ k. k < length lists.now) }
    ensures none { IfNone result ((k : ℕ) (list : List CommitValue) → slice_get (lists_of lists.now) k ≡ Some list
        → heads_with number list ≡ false) }
{
    for k in 0..lists.len() {
        if heads(&lists[k], number) {
            return Some(k);
        }
    }
    None
}

// Takes the commit of this number, if it is the next of a list.
fn take_next<A: Memory>(lists: &mut Vec<Vec<Commit<A>, A>, A>, number: u64) -> Option<Commit<A>>
    ensures some { IfSome result (λ commit. TakesFrom number commit (lists_of lists.old.items)
        (lists_of lists.new.items)) }
    ensures none { IfNone result ((k : ℕ) (list : List CommitValue) → slice_get (lists_of lists.old.items) k ≡ Some list
        → heads_with number list ≡ false) }
{
    let k = find_next(lists, number)?;
    let list = &mut lists[k];
    list.pop()
}

// All commits, by number, of the lists of all sessions, each of which is taken from its end.
fn gather<R: Wait, A: Memory>(
    rt: &R,
    alloc: A,
    mut lists: Vec<Vec<Commit<A>, A>, A>,
) -> Result<Vec<Commit<A>, A>, Error>
    ensures ok { IfOk result (λ v. (book : List SessionValue) (count : ℕ) → lists_of lists.items ≡ commits_of book
        → (all : AreAllCommits book count) → v.items ≡ map (λ c. c.1) all.commits) }
    ensures no_memory { IfErr result (λ e. e ≡ NoMemory) }
{
    let mut gathered = Vec::new(alloc);
    for _ in rt.forever() {
        let number = gathered.len() as u64 + 1;
        match take_next(&mut lists, number) {
            Some(commit) => gathered.push(commit)?,
            None => return Ok(gathered),
        }
    }
    unreachable!()
}

// The commits of a seat that keeps them, the last one first.
fn reversed<B: Group, A: Memory, K: Keeping>(seat: Seat<B, A, K>) -> Vec<Commit<A>, A>
    requires { K.kept ≡ true }
    ensures { reverse result.items ≡ seat.session.commits }
{
    let Some(mut commits) = seat.into_session().into_commits() else {
        unreachable!()
    };
    commits.reverse();
    commits
}

// The commits of each seat, where they are kept, the last one first.
fn lists_of_seats<B: Group, A: Memory, K: Keeping>(
    alloc: A,
    seats: Vec<Seat<B, A, K>, A>,
) -> Result<Vec<Vec<Commit<A>, A>, A>, Error>
    requires { K.kept ≡ true }
    ensures lists { IfOk result (λ lists. lists_of lists.items ≡ commits_of (sessions_of seats.items)) }
    ensures no_memory { IfErr result (λ e. e ≡ NoMemory) }
{
    let mut lists = Vec::with_capacity(alloc, seats.len())?;
    for seat in seats {
        lists.push(reversed(seat))?;
    }
    Ok(lists)
}

// The commits of all seats, by number, where they are kept.
pub(crate) fn gather_commits<B: Group, R: Wait, A: Memory, K: Keeping>(
    rt: &R,
    alloc: A,
    seats: Vec<Seat<B, A, K>, A>,
) -> Result<Option<Vec<Commit<A>, A>>, Error>
    ensures given { IfOk result (λ r. is_some r ≡ K.kept) }
    ensures ok { IfOk result (λ r. IfSome r (λ v. (count : ℕ) (all : AreAllCommits (sessions_of seats.items) count)
        → v.items ≡ map (λ c. c.1) all.commits)) }
    ensures no_memory { IfErr result (λ e. e ≡ NoMemory) }
{
    if !K::keeps() {
        return Ok(None);
    }
    let lists = lists_of_seats(alloc, seats)?;
    let gathered = gather(rt, alloc, lists)?;
    Ok(Some(gathered))
}

// The session that each seat shows is the one under the lock.
pub(crate) fn compare_all<B: Group, A: Memory, K: Keeping>(
    registry: &Registry<A>,
    locked: &mut Locked<B, A>,
    seats: &mut Vec<Seat<B, A, K>, A>,
)
    requires { registry.now ≡ B.site.table }
    ensures seen { AreSeen (locked_of locked.old).book seats.old.items }
    ensures seats { seats.new.items ≡ seats.old.items }
    ensures same { locked_of locked.new ≡ locked_of locked.old }
{
    for k in 0..seats.len() {
        let seat = &mut seats[k];
        seat.compare(registry, locked);
    }
}
