//! Laws of a core that many seats share: what their sessions' steps and the queue keep of it, in whatever order they
//! come.
//!
//! They follow from what a session's steps, the core and the laws of its calls promise, and speak of no lock.
//!
//! Proved: the sessions of all seats have of each transaction, commit, creation and dropping what the core has
//! (`IsRegister`). Of a core that was opened soundly it is so from the opening on, and after each kind of step
//! (`each_agreement`, `each_agreement_of_a_transaction`, `each_commit`). `each_number` says which numbers steps answer.
//! For each record number the commits up to it give the table (`each_table`). A seat reads its own rows off its session
//! (`each_sight`, `each_row`).
//!
//! Lemmas about its public words that crates above may cite, in `proofs`: `Laws` and `CoreLaws` (of `core_laws`).
#![tactic(auto)]

ghost use Rattle.std.specs.Prelude.{◌≡◌, ◌+◌, ◌++◌, ◌∷◌, [], List, None, Option, Some, slice_get, slice_set, true, ℕ};
ghost use Rattle.std.specs.FinMap.{get};
ghost use Rattle.records.specs.RecordValue.{RecordValue};
ghost use Rattle.record_values.specs.Values.{Place};
ghost use Rattle.record_values.specs.declared.error.Error.{Error};
ghost use Rattle.records.specs.declared.record.Action.TheVariants.{OfIndex, OfTxn};
ghost use Rattle.records.specs.declared.record.IndexAction.{IndexAction};
ghost use Rattle.records.specs.declared.record.TxnAction.{TxnAction};
ghost use Rattle.record_values.specs.declared.row.Row.{Row};
ghost use Rattle.core_model.specs.Histories.{CanOpen, Opened};
ghost use Rattle.core_model.specs.Events.{Event, Refused, Reply};
ghost use Rattle.core_laws.specs.Calls.{BeginsWith};
ghost use Rattle.core_parts.specs.Moves.{IsReadyOrNone, OwesOrNone, txn_shown};
ghost use Rattle.threads_sessions.specs.Outbox.{HandsOn};
ghost use Rattle.core_parts.specs.Replies.{reply_of_ticket};
ghost use Rattle.core_parts.specs.Undoing.{undone_reply};
ghost use Rattle.core_parts.specs.View.{CoreValue, Serves};
ghost use Rattle.core_parts.specs.declared.parts.Ticket.{Ticket};
ghost use Rattle.core_parts.specs.declared.reply.Undone.{Undone};
ghost use Rattle.threads_sessions.specs.declared.turn.Turn.TheVariants.{Created, Dropped};
ghost use Rattle.threads_sessions.specs.Values.{active_of, ActiveValue, is_active, is_ready, rows_of, SessionValue};
ghost use Rattle.model.specs.declared.write.Write.{Write};
ghost use Rattle.threads_sessions.specs.Steps.{begun, changed, committed, ended, rolling_back, stepped, with_turn};
ghost use Rattle.threads_register.specs.Agreement.{IsOfNoSeat, IsRegister, row_at, row_held};
ghost use Rattle.threads_register.specs.History.{ShowsCommits};
ghost use Rattle.txn_table.specs.Table.{holder_of};
ghost use Rattle.threads_register.specs.Reading.{ReadsBack, ShowsRow, unfinished_of};
ghost use Rattle.threads_register.specs.Register.{AreAllCommits, AreEmpty, IsRegisterKept, IsNoCommit};

use core_laws::each_call;

/// A law: a core is kept from the moment that it is opened, by each step of a session and each time that records are
/// pushed. So whoever gets at it finds that its records, those pushed first and then those that wait, are the ones that
/// some allowed replies made.
pub fn each_step()
    ensures begins { (o : Opened) (core : CoreValue) → BeginsWith o core → IsRegisterKept o [] core }
    ensures served { (o : Opened) → CanOpen o → (pushed : List RecordValue) (core : CoreValue)
        → IsRegisterKept o pushed core → (e : Event) (reply : Reply) (new : CoreValue) → Serves core e reply new
        → IsRegisterKept o pushed new }
    ensures pushed { (o : Opened) (pushed : List RecordValue) (core : CoreValue) → IsRegisterKept o pushed core
        → (new : CoreValue) (after : List RecordValue) → HandsOn core new pushed after → IsRegisterKept o after new }
{
    each_call();
}

/// A law: the numbers that steps answer. A transaction has the number after those begun; a commit the number of the
/// next record and that after the commits so far, which are one more then and by no other step; a creation and a
/// dropping of the index the number of the next record, and they are no commits. The record of that number is the
/// transaction's commit, the creation, or the dropping.
pub fn each_number()
    ensures begin { (o : Opened) (pushed : List RecordValue) (core : CoreValue) → IsRegisterKept o pushed core
        → (txn : ℕ) (new : CoreValue) → Serves core Event.Begin (Reply.Txn txn) new → txn ≡ core.txns.begun + 1 }
    ensures commit { (o : Opened) (pushed : List RecordValue) (core : CoreValue) → IsRegisterKept o pushed core
        → (txn : ℕ) (ticket : Ticket) (new : CoreValue) → Serves core (Event.Commit txn) (reply_of_ticket ticket) new
        → (ticket.«record» ≡ core.last + 1) × (ticket.commit ≡ Some (core.commits + 1)) }
    ensures counted { (o : Opened) (pushed : List RecordValue) (core : CoreValue) → IsRegisterKept o pushed core
        → (txn : ℕ) (ticket : Ticket) (new : CoreValue) → Serves core (Event.Commit txn) (reply_of_ticket ticket) new
        → (new.last ≡ core.last + 1) × (new.commits ≡ core.commits + 1) }
    ensures create { (o : Opened) (pushed : List RecordValue) (core : CoreValue) → IsRegisterKept o pushed core
        → (ticket : Ticket) (new : CoreValue) → Serves core Event.Create (reply_of_ticket ticket) new
        → (ticket.«record» ≡ core.last + 1) × (ticket.commit ≡ None) }
    ensures drop { (o : Opened) (pushed : List RecordValue) (core : CoreValue) → IsRegisterKept o pushed core
        → (ticket : Ticket) (new : CoreValue) → Serves core Event.Drop (reply_of_ticket ticket) new
        → (ticket.«record» ≡ core.last + 1) × (ticket.commit ≡ None) }
    ensures commit_record { (o : Opened) (pushed : List RecordValue) (core : CoreValue) → IsRegisterKept o pushed core
        → (txn : ℕ) (ticket : Ticket) (new : CoreValue) → Serves core (Event.Commit txn) (reply_of_ticket ticket) new
        → new.outbox ≡ core.outbox ++ record { number = ticket.«record»; action = OfTxn txn TxnAction.Commit } ∷ [] }
    ensures create_record { (o : Opened) (pushed : List RecordValue) (core : CoreValue) → IsRegisterKept o pushed core
        → (ticket : Ticket) (new : CoreValue) → Serves core Event.Create (reply_of_ticket ticket) new
        → new.outbox ≡ core.outbox ++ record { number = ticket.«record»; action = OfIndex IndexAction.Create } ∷ [] }
    ensures drop_record { (o : Opened) (pushed : List RecordValue) (core : CoreValue) → IsRegisterKept o pushed core
        → (ticket : Ticket) (new : CoreValue) → Serves core Event.Drop (reply_of_ticket ticket) new
        → new.outbox ≡ core.outbox ++ record { number = ticket.«record»; action = OfIndex IndexAction.Drop } ∷ [] }
    ensures others { (o : Opened) (pushed : List RecordValue) (core : CoreValue) → IsRegisterKept o pushed core
        → (e : Event) (reply : Reply) (new : CoreValue) → IsNoCommit e → Serves core e reply new
        → new.commits ≡ core.commits }
{}

/// A law: the commits of all seats have the numbers 1 to n, each once, and each session has its own in their order: in
/// new sessions, after a commit that is given the next number, and after any other change of one session, which leaves
/// its commits as they were.
pub fn each_commit()
    ensures begins { (book : List SessionValue) → AreEmpty book → AreAllCommits book 0 }
    ensures commits { (book : List SessionValue) (count : ℕ) → AreAllCommits book count
        → (seat : ℕ) (session : SessionValue) → slice_get book seat ≡ Some session → (txn : ℕ) (ticket : Ticket)
        → ticket.commit ≡ Some (count + 1)
        → AreAllCommits (slice_set book seat (committed session txn ticket)) (count + 1) }
    ensures stays { (book : List SessionValue) (count : ℕ) → AreAllCommits book count
        → (seat : ℕ) (session new : SessionValue) → slice_get book seat ≡ Some session → new.commits ≡ session.commits
        → AreAllCommits (slice_set book seat new) count }
{}

/// A law: what the sessions of the seats have of the active transactions is what the core has, from the opening on,
/// whatever call is served: each transaction is in the session of one seat, with just the places that it holds and the
/// rows that are there now, the change of which it owes a step, and whether it is rolling back. And the commits of the
/// sessions, and what they did to the index, are what the calls tell of, with the numbers of their records. A call that
/// is refused, and one of the builder, of the cleaner or of a reader, leaves the sessions as they are; and so does a
/// push of records.
pub fn each_agreement()
    ensures opens { (o : Opened) (core : CoreValue) → BeginsWith o core → (book : List SessionValue) → AreEmpty book
        → IsRegister o [] core book }
    ensures pushed { (o : Opened) (pushed : List RecordValue) (core : CoreValue) (book : List SessionValue)
        → IsRegister o pushed core book → (new : CoreValue) (after : List RecordValue) → HandsOn core new pushed after
        → IsRegister o after new book }
    ensures others { (o : Opened) → CanOpen o
        → (pushed : List RecordValue) (core : CoreValue) (book : List SessionValue) → IsRegister o pushed core book
        → (e : Event) (reply : Reply) (new : CoreValue) → IsOfNoSeat e → Serves core e reply new
        → IsRegister o pushed new book }
    ensures refused { (o : Opened) → CanOpen o
        → (pushed : List RecordValue) (core : CoreValue) (book : List SessionValue) → IsRegister o pushed core book
        → (e : Event) (error : Error) (new : CoreValue) → Serves core e (Refused error) new
        → IsRegister o pushed new book }
    ensures begin { (o : Opened) → CanOpen o → (pushed : List RecordValue) (core : CoreValue) (book : List SessionValue)
        → IsRegister o pushed core book → (seat : ℕ) (session : SessionValue) → slice_get book seat ≡ Some session
        → (txn : ℕ) (new : CoreValue) → Serves core Event.Begin (Reply.Txn txn) new
        → IsRegister o pushed new (slice_set book seat (begun session txn)) }
    ensures create { (o : Opened) → CanOpen o
        → (pushed : List RecordValue) (core : CoreValue) (book : List SessionValue) → IsRegister o pushed core book
        → (seat : ℕ) (session : SessionValue) → slice_get book seat ≡ Some session
        → (ticket : Ticket) (new : CoreValue) → Serves core Event.Create (reply_of_ticket ticket) new
        → IsRegister o pushed new (slice_set book seat (with_turn session (Created ticket.«record»))) }
    ensures drop { (o : Opened) → CanOpen o → (pushed : List RecordValue) (core : CoreValue) (book : List SessionValue)
        → IsRegister o pushed core book → (seat : ℕ) (session : SessionValue) → slice_get book seat ≡ Some session
        → (ticket : Ticket) (new : CoreValue) → Serves core Event.Drop (reply_of_ticket ticket) new
        → IsRegister o pushed new (slice_set book seat (with_turn session (Dropped ticket.«record»))) }
{}

/// A law: so it is after each step of a transaction of a seat.
pub fn each_agreement_of_a_transaction()
    ensures insert { (o : Opened) → CanOpen o
        → (pushed : List RecordValue) (core : CoreValue) (book : List SessionValue) → IsRegister o pushed core book
        → (seat : ℕ) (session : SessionValue) → slice_get book seat ≡ Some session → (txn : ℕ)
        → is_active session txn ≡ true
        → (row : Row) (rid : Place) (new : CoreValue) → Serves core (Event.Insert txn row) (Reply.Rid rid) new
        → IsRegister o pushed new (slice_set book seat (changed session new txn
        (record { rid = rid; row = Some row }))) }
    ensures delete { (o : Opened) → CanOpen o
        → (pushed : List RecordValue) (core : CoreValue) (book : List SessionValue) → IsRegister o pushed core book
        → (seat : ℕ) (session : SessionValue) → slice_get book seat ≡ Some session → (txn : ℕ)
        → is_active session txn ≡ true
        → (rid : Place) (new : CoreValue) → Serves core (Event.Delete txn rid) Reply.Stepped new
        → IsRegister o pushed new (slice_set book seat (changed session new txn
        (record { rid = rid; row = None }))) }
    ensures update { (o : Opened) → CanOpen o
        → (pushed : List RecordValue) (core : CoreValue) (book : List SessionValue) → IsRegister o pushed core book
        → (seat : ℕ) (session : SessionValue) → slice_get book seat ≡ Some session → (txn : ℕ)
        → is_active session txn ≡ true
        → (rid : Place) (row : Row) (new : CoreValue) → Serves core (Event.Update txn rid row) Reply.Stepped new
        → IsRegister o pushed new (slice_set book seat (changed session new txn
        (record { rid = rid; row = Some row }))) }
    ensures next_step { (o : Opened) → CanOpen o
        → (pushed : List RecordValue) (core : CoreValue) (book : List SessionValue) → IsRegister o pushed core book
        → (seat : ℕ) (session : SessionValue) → slice_get book seat ≡ Some session → (txn : ℕ)
        → is_active session txn ≡ true
        → (new : CoreValue) → Serves core (Event.Step txn) Reply.Stepped new
        → IsRegister o pushed new (slice_set book seat (stepped session new txn)) }
    ensures undo_step { (o : Opened) → CanOpen o
        → (pushed : List RecordValue) (core : CoreValue) (book : List SessionValue) → IsRegister o pushed core book
        → (seat : ℕ) (session : SessionValue) → slice_get book seat ≡ Some session → (txn : ℕ)
        → is_active session txn ≡ true
        → (answer : Undone) (new : CoreValue) → Serves core (Event.Undo txn) (undone_reply answer) new
        → IsRegister o pushed new (slice_set book seat (rolling_back session new txn)) }
    ensures end { (o : Opened) → CanOpen o → (pushed : List RecordValue) (core : CoreValue) (book : List SessionValue)
        → IsRegister o pushed core book → (seat : ℕ) (session : SessionValue) → slice_get book seat ≡ Some session
        → (txn : ℕ) → is_active session txn ≡ true
        → (new : CoreValue) → Serves core (Event.End txn) Reply.Ended new
        → IsRegister o pushed new (slice_set book seat (ended session txn)) }
    ensures commit { (o : Opened) → CanOpen o
        → (pushed : List RecordValue) (core : CoreValue) (book : List SessionValue) → IsRegister o pushed core book
        → (seat : ℕ) (session : SessionValue) → slice_get book seat ≡ Some session → (txn : ℕ)
        → is_active session txn ≡ true
        → (ticket : Ticket) (new : CoreValue) → Serves core (Event.Commit txn) (reply_of_ticket ticket) new
        → IsRegister o pushed new (slice_set book seat (committed session txn ticket)) }
{}

/// A law: what a seat's session says of the core. A transaction that is ready there may begin a change or commit; one
/// with a change to finish owes a step of it; and the row that it has for a place is the one that is there.
pub fn each_sight()
    ensures ready { (o : Opened) → CanOpen o → (pushed : List RecordValue) (core : CoreValue) (book : List SessionValue)
        → IsRegister o pushed core book → (seat : ℕ) (session : SessionValue) → slice_get book seat ≡ Some session
        → (txn : ℕ)
        → is_ready session txn ≡ true → IsReadyOrNone (txn_shown core txn) }
    ensures unfinished { (o : Opened) → CanOpen o
        → (pushed : List RecordValue) (core : CoreValue) (book : List SessionValue) → IsRegister o pushed core book
        → (seat : ℕ) (session : SessionValue) → slice_get book seat ≡ Some session
        → (txn : ℕ) (a : ActiveValue) (change : Write) → active_of txn session.active ≡ Some a
        → a.unfinished ≡ Some change → OwesOrNone (txn_shown core txn) }
    ensures rows { (o : Opened) → CanOpen o → (pushed : List RecordValue) (core : CoreValue) (book : List SessionValue)
        → IsRegister o pushed core book → (seat : ℕ) (session : SessionValue) → slice_get book seat ≡ Some session
        → (txn : ℕ) (a : ActiveValue) (rid : Place) (row : Option Row) → active_of txn session.active ≡ Some a
        → row_at rid a.rows ≡ Some row → get core.heap.rows rid ≡ row }
    ensures left { (o : Opened) → CanOpen o → (pushed : List RecordValue) (core : CoreValue) (book : List SessionValue)
        → IsRegister o pushed core book → (seat : ℕ) (session : SessionValue) → slice_get book seat ≡ Some session
        → (txn : ℕ)
        → is_active session txn ≡ true → (rid : Place) → row_at rid (rows_of txn session.active)
        ≡ row_held txn (holder_of rid core.txns.active) (get core.heap.rows rid) }
{}

/// A law: a seat reads back its own rows. Once an insertion is answered, its session has the new row for the place;
/// once the first step of a deletion or an update is, it has the new row, or, as long as the change is to be finished,
/// the row that was there; and after a further step it has the new row.
pub fn each_row()
    ensures insert { (o : Opened) → CanOpen o
        → (pushed : List RecordValue) (core : CoreValue) (book : List SessionValue) → IsRegister o pushed core book
        → (seat : ℕ) (session : SessionValue) → slice_get book seat ≡ Some session → (txn : ℕ)
        → is_active session txn ≡ true
        → (row : Row) (rid : Place) (new : CoreValue) → Serves core (Event.Insert txn row) (Reply.Rid rid) new
        → ShowsRow txn (record { rid = rid; row = Some row })
        (changed session new txn (record { rid = rid; row = Some row })) }
    ensures delete { (o : Opened) → CanOpen o
        → (pushed : List RecordValue) (core : CoreValue) (book : List SessionValue) → IsRegister o pushed core book
        → (seat : ℕ) (session : SessionValue) → slice_get book seat ≡ Some session → (txn : ℕ)
        → is_active session txn ≡ true
        → (rid : Place) (new : CoreValue) → Serves core (Event.Delete txn rid) Reply.Stepped new
        → ReadsBack (get core.heap.rows rid) txn (record { rid = rid; row = None })
        (changed session new txn (record { rid = rid; row = None })) }
    ensures update { (o : Opened) → CanOpen o
        → (pushed : List RecordValue) (core : CoreValue) (book : List SessionValue) → IsRegister o pushed core book
        → (seat : ℕ) (session : SessionValue) → slice_get book seat ≡ Some session → (txn : ℕ)
        → is_active session txn ≡ true
        → (rid : Place) (row : Row) (new : CoreValue) → Serves core (Event.Update txn rid row) Reply.Stepped new
        → ReadsBack (get core.heap.rows rid) txn (record { rid = rid; row = Some row })
        (changed session new txn (record { rid = rid; row = Some row })) }
    ensures next_step { (o : Opened) → CanOpen o
        → (pushed : List RecordValue) (core : CoreValue) (book : List SessionValue) → IsRegister o pushed core book
        → (seat : ℕ) (session : SessionValue) → slice_get book seat ≡ Some session → (txn : ℕ)
        → is_active session txn ≡ true
        → (change : Write) → unfinished_of session txn ≡ Some change → (new : CoreValue)
        → Serves core (Event.Step txn) Reply.Stepped new → ShowsRow txn change (stepped session new txn) }
{}

/// A law: the commits of all sessions are those of the records. For each record number from that of the opening on, the
/// records up to it, with the uncommitted changes taken back, give the table of the opening with the rows of the
/// commits up to it set over it in order; and with all records that is the core's committed table.
pub fn each_table()
    ensures { (o : Opened) → CanOpen o → (pushed : List RecordValue) (core : CoreValue) (book : List SessionValue)
        → (r : IsRegister o pushed core book) → ShowsCommits o (pushed ++ core.outbox) core r.commits.commits }
{}
