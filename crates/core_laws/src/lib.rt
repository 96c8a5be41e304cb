//! Laws of the core with its index: what holds after any list of calls, of any transactions, the builder and the
//! cleaner.
//!
//! They follow from what the methods of `nsf_core` promise alone, one call after another, and speak of no device.
//!
//! A core that was just loaded or made begins with what it was given (`each_opening`). Proved, of any list of calls of
//! a core that began soundly (`any_calls`): each reply was allowed (`replied`), and the core holds the history that the
//! replies tell (`holds`). With a complete index and no transaction active, the visible entries are the pairs of the
//! rows (`complete`). Wherever the records stop, a prefix of the history is recovered of them (`recovers`). `one_reply`
//! and `one_answer`: but for want of memory, a state and an event leave one reply, and one value as far as calls tell.
//! A check says what the call then answers (`one_check`). A change has two further steps at the most
//! (`each_further_step`).
//!
//! Lemmas about its public words that crates above may cite, in `proofs`: `Laws`.
#![tactic(auto)]

ghost use Rattle.std.specs.Prelude.{◌≡◌, ◌≢◌, ◌<◌, ◌≤◌, ◌+◌, ◌++◌, [], ◌∷◌, ℕ, List, Option, length, take};
ghost use Rattle.std.specs.FinMap.{len};
ghost use Rattle.record_values.specs.GeometryValue.{GeometryValue};
ghost use Rattle.records.specs.RecordValue.{RecordValue};
ghost use Rattle.record_values.specs.declared.error.Error.{Error};
ghost use Rattle.record_values.specs.declared.number.TheConstants.{LAST_NUMBER};
ghost use Rattle.model.specs.Given.{Given, IsBeginning, given_after};
ghost use Rattle.model.specs.Inside.{IsGivenInside};
ghost use Rattle.model.specs.declared.life.Life.TheVariants.{Complete};
ghost use Rattle.core_model.specs.States.{State};
ghost use Rattle.core_model.specs.Steps.{MachineStep};
ghost use Rattle.core_model.specs.Histories.{CanOpen, Opened, no_writes};
ghost use Rattle.core_model.specs.Events.{Event, Refused, Reply, Skipped, Standing, Stepped};
ghost use Rattle.core_model.specs.Replies.{IsAllowed, WantsMemory};
ghost use Rattle.core_model.specs.Served.{HasStanding, items_of};
ghost use Rattle.core_copies.specs.Loaded.{holding};
ghost use Rattle.core_parts.specs.Moves.{fresh, txn_shown};
ghost use Rattle.core_copies.specs.Outbox.{HandsOn};
ghost use Rattle.core_parts.specs.Asked.{IsFine, IsRefused};
ghost use Rattle.core_parts.specs.View.{CoreValue, IsSafe, Serves};
ghost use Rattle.core_laws.specs.Alike.{AreAlike};
ghost use Rattle.core_laws.specs.Calls.{BeginsWith, Calls, HasReplied};
ghost use Rattle.core_laws.specs.Openings.{empty_after, store_with};
ghost use Rattle.core_laws.specs.Holds.{HoldsHistory, ShowsRows};
ghost use Rattle.core_laws.specs.Further.{steps_owed};
ghost use Rattle.core_laws.specs.Granted.{IsGranted};
ghost use Rattle.txn_table.specs.Table.{TxnState};

/// A law: a core that was loaded with what fits its store begins with that, and one that was just made with nothing,
/// which is something to begin with.
pub fn each_opening()
    ensures loaded { (g : GeometryValue) (given : Given) → IsGivenInside g.pages given → len given.entries ≤ g.entries
        → given.last ≤ LAST_NUMBER → BeginsWith (store_with g given) (holding g given) }
    ensures made { (g : GeometryValue) (base : ℕ) → base ≤ LAST_NUMBER
        → BeginsWith (store_with g (empty_after base)) (fresh g base) }
    ensures opens { (g : GeometryValue) (base : ℕ) → CanOpen (store_with g (empty_after base)) }
{}

/// A law: one call more. The core has replied to nothing when it begins; a reply that its method's contract admits is
/// one that is allowed, and its record, if it made one, waits behind the others; and to hand records on changes nothing
/// else.
pub fn each_call()
    ensures begins { (o : Opened) (v : CoreValue) → BeginsWith o v → HasReplied o [] [] v }
    ensures replies { (o : Opened) → CanOpen o
        → (pairs : List (Event × Reply)) (handed : List RecordValue) (v : CoreValue) → HasReplied o pairs handed v
        → (e : Event) (reply : Reply) (new : CoreValue) → Serves v e reply new
        → HasReplied o (pairs ++ (e, reply) ∷ []) handed new }
    ensures hands_on { (o : Opened) (pairs : List (Event × Reply)) (handed : List RecordValue) (v : CoreValue)
        → HasReplied o pairs handed v
        → (new : CoreValue) (before after : List RecordValue) (on : HandsOn v new before after)
        → HasReplied o pairs (handed ++ on.handed) new }
{}

/// A law: after any list of calls every reply was allowed as it was given, and the core holds what the history of these
/// events and replies tells. With a complete index and no active transaction the visible entries are just the pairs of
/// the rows. And wherever its records stop, a beginning of the history is recovered of them.
pub fn any_calls()
    ensures replied { (o : Opened) → CanOpen o → (v : CoreValue) → BeginsWith o v
        → (pairs : List (Event × Reply)) (handed : List RecordValue) (new : CoreValue) → Calls v pairs handed new
        → HasReplied o pairs handed new }
    ensures holds { (o : Opened) → CanOpen o → (v : CoreValue) → BeginsWith o v
        → (pairs : List (Event × Reply)) (handed : List RecordValue) (new : CoreValue) → Calls v pairs handed new
        → HoldsHistory o (items_of no_writes pairs) new }
    ensures complete { (o : Opened) → CanOpen o → (v : CoreValue) → BeginsWith o v
        → (pairs : List (Event × Reply)) (handed : List RecordValue) (new : CoreValue) → Calls v pairs handed new
        → new.life ≡ Complete → new.txns.active ≡ [] → ShowsRows new }
    ensures numbers { (o : Opened) → CanOpen o → (v : CoreValue) → BeginsWith o v
        → (pairs : List (Event × Reply)) (handed : List RecordValue) (new : CoreValue) → Calls v pairs handed new
        → new.last ≡ o.given.last + length (handed ++ new.outbox) }
    ensures recovers { (o : Opened) → CanOpen o → (v : CoreValue) → BeginsWith o v
        → (pairs : List (Event × Reply)) (handed : List RecordValue) (new : CoreValue) → Calls v pairs handed new
        → (n : ℕ) → n ≤ length (handed ++ new.outbox)
        → IsBeginning o.given (items_of no_writes pairs) (o.given.last + n)
        (given_after o.given (take n (handed ++ new.outbox))) }
{}

/// A law: in a state an event has one reply, made by one step, unless memory is wanted; only what takes memory may want
/// it; and no other refusal gives way to it.
pub fn one_reply()
    ensures one { (s : State) (k : Standing) → HasStanding s k
        → (e : Event) (reply other : Reply) (step next : Option MachineStep) → IsAllowed s k e reply step
        → IsAllowed s k e other next
        → reply ≢ Refused Error.NoMemory → other ≢ Refused Error.NoMemory → (reply ≡ other) × (step ≡ next) }
    ensures memory { (s : State) (k : Standing) → HasStanding s k
        → (e : Event) (reply : Reply) (step none : Option MachineStep) → IsAllowed s k e reply step
        → reply ≢ Refused Error.NoMemory
        → IsAllowed s k e (Refused Error.NoMemory) none → WantsMemory s e step }
    ensures granted { (s : State) (k : Standing) → HasStanding s k
        → (e : Event) (reply : Reply) (step none : Option MachineStep) → IsAllowed s k e reply step
        → reply ≢ Refused Error.NoMemory
        → IsAllowed s k e (Refused Error.NoMemory) none → IsGranted reply }
{}

/// A law: a call leaves one value. Unless memory is wanted, a core's call has one reply, and what it leaves is the
/// same, as far as any call tells.
pub fn one_answer()
    ensures reply { (old new next : CoreValue) (e : Event) (reply other : Reply) → IsSafe old → Serves old e reply new
        → Serves old e other next
        → reply ≢ Refused Error.NoMemory → other ≢ Refused Error.NoMemory → reply ≡ other }
    ensures value { (old new next : CoreValue) (e : Event) (reply other : Reply) → IsSafe old → Serves old e reply new
        → Serves old e other next
        → reply ≢ Refused Error.NoMemory → other ≢ Refused Error.NoMemory → AreAlike new next }
{}

/// A law: a check says what the call then answers. A refusal that it gives is the one that there is, and the call gets
/// no other reply; and where nothing but want of memory refuses, no refusal is there, and the call, unless memory is
/// wanted, gets what it asks for.
pub fn one_check()
    ensures one { (v : CoreValue) (e : Event) (error other : Error) → IsSafe v → IsRefused v e error
        → IsRefused v e other → error ≡ other }
    ensures apart { (v : CoreValue) (e : Event) (error : Error) → IsSafe v → IsRefused v e error → IsFine v e → ⊥ }
    ensures refused { (v new : CoreValue) (e : Event) (error : Error) (reply : Reply) → IsSafe v → IsRefused v e error
        → Serves v e reply new → reply ≡ Refused error }
    ensures fine { (v new : CoreValue) (e : Event) (reply : Reply) → IsSafe v → IsFine v e → Serves v e reply new
        → reply ≢ Refused Error.NoMemory → IsGranted reply }
{}

/// A law: a change has two further steps at the most. Each that is made is one of those that its transaction owed
/// (`fewer`), and where one is skipped none was owed (`none`).
pub fn each_further_step()
    ensures fewer { (old new : CoreValue) (txn : ℕ) → IsSafe old → Serves old (Event.Step txn) Stepped new
        → steps_owed (txn_shown new txn) < steps_owed (txn_shown old txn) }
    ensures none { (old new : CoreValue) (txn : ℕ) → IsSafe old → Serves old (Event.Step txn) Skipped new
        → steps_owed (txn_shown old txn) ≡ 0 }
    ensures two { (of_txn : Option TxnState) → steps_owed of_txn ≤ 2 }
{}
