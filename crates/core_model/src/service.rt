//! Which reply each event may get, and what a core that replied so has made.
ghost use Rattle.std.specs.Prelude.{Option, take, length, ◌≡◌, ◌≤◌, ◌+◌, ◌++◌, [], ◌∷◌, ℕ, List};
ghost use Rattle.model.specs.History.{AreRising, life_after, table_after};
ghost use Rattle.core_model.specs.States.{State};
ghost use Rattle.records.specs.RecordValue.{RecordValue};
ghost use Rattle.record_values.specs.declared.number.TheConstants.{LAST_NUMBER};
ghost use Rattle.record_values.specs.declared.txn.TheConstants.{TXNS_MAX};
ghost use Rattle.model.specs.Given.{Given, IsBeginning, given_after};
ghost use Rattle.core_model.specs.Events.{Event, Reply, Standing, standing_after, standing_at};
ghost use Rattle.core_model.specs.Worked.{script, standing};
ghost use Rattle.core_model.specs.Example.{opening, last, pair, steps};
ghost use Rattle.core_model.specs.Logs.{records_over};
ghost use Rattle.core_model.specs.Served.{HasServed, HasStanding, IsMadeOf, IsMove, ServesAll, items_of, records_by};
ghost use Rattle.core_model.specs.Replies.{IsAllowed, after_any};
ghost use Rattle.core_model.specs.Steps.{MachineStep, after};
ghost use Rattle.core_model.specs.Invariants.{IsWellFormed};
ghost use Rattle.core_model.specs.Histories.{Opened, CanOpen, opened, IsFaithful, history, no_writes};

/// A law: an event that gets an allowed reply is one enabled step, or none, and makes at most one record, as the
/// reply says.
pub fn each_reply()
    ensures { (s : State) (k : Standing) (e : Event) (reply : Reply) (step : Option MachineStep) → IsWellFormed s
        → HasStanding s k → IsAllowed s k e reply step → IsMove s k step (standing_after k reply) }
{}

/// A law: from what was opened on: each event with its reply adds its record, if it makes one, and its item to the
/// history.
pub fn each_service()
    ensures begins { (o : Opened) → o.given.last ≤ LAST_NUMBER
        → HasServed o [] [] (opened o) (standing_at o.given.last) }
    ensures goes_on { (o : Opened) → CanOpen o
        → (made : List RecordValue) (pairs : List (Event × Reply)) (s : State) (k : Standing)
        → HasServed o made pairs s k → (e : Event) (reply : Reply) (step : Option MachineStep)
        → IsAllowed s k e reply step
        → HasServed o (made ++ records_by s k.made step) (pairs ++ (e, reply) ∷ []) (after_any s step)
        (standing_after k reply) }
    ensures numbers { (o : Opened) (made : List RecordValue) (pairs : List (Event × Reply)) (s : State) (k : Standing)
        → HasServed o made pairs s k → (k.made ≤ LAST_NUMBER) × (k.begun ≤ LAST_NUMBER + TXNS_MAX) }
    ensures faithful { (o : Opened) → CanOpen o
        → (made : List RecordValue) (pairs : List (Event × Reply)) (s : State) (k : Standing)
        → HasServed o made pairs s k
        → IsFaithful s (table_after o.given.table (items_of no_writes pairs))
        × (s.life ≡ life_after o.given.life (items_of no_writes pairs)) }
    ensures recovers { (o : Opened) → CanOpen o
        → (made : List RecordValue) (pairs : List (Event × Reply)) (s : State) (k : Standing)
        → HasServed o made pairs s k → (n : ℕ) → n ≤ length made
        → IsBeginning o.given (items_of no_writes pairs) (o.given.last + n) (given_after o.given (take n made))
        × CanOpen (record o { given = given_after o.given (take n made) }) }
    ensures crashed { (o : Opened) → CanOpen o
        → (made : List RecordValue) (pairs : List (Event × Reply)) (s : State) (k : Standing)
        → HasServed o made pairs s k → (handed waiting : List RecordValue) → made ≡ handed ++ waiting
        → (n : ℕ) → n ≤ length handed → IsBeginning o.given (items_of no_writes pairs) (o.given.last + n)
        (given_after o.given (take n handed)) × CanOpen (record o { given = given_after o.given (take n handed) }) }
{}

/// A law: so it is of a list of events, each with an allowed reply; and the numbers of the items rise. The replies
/// decide which records are made with them: so what is made of some of these records, entries and all, is decided by
/// how many they are.
pub fn all_replies()
    ensures log { (o : Opened) → CanOpen o → o.given.last ≤ LAST_NUMBER
        → (made : List RecordValue) (pairs : List (Event × Reply)) (s : State) (k : Standing)
        → ServesAll (opened o) (standing_at o.given.last) pairs made s k → HasServed o made pairs s k }
    ensures rising { (o : Opened) (last : ℕ)
        (made : List RecordValue) (pairs : List (Event × Reply)) (s : State) (k : Standing)
        → ServesAll (opened o) (standing_at last) pairs made s k → AreRising last (items_of no_writes pairs) }
    ensures one { (o : Opened) (last : ℕ) (pairs : List (Event × Reply)) (made more : List RecordValue)
        (s t : State) (k l : Standing) → ServesAll (opened o) (standing_at last) pairs made s k
        → ServesAll (opened o) (standing_at last) pairs more t l → made ≡ more }
    ensures pinned { (o : Opened) (pairs : List (Event × Reply)) (given other : Given) → IsMadeOf o pairs given
        → IsMadeOf o pairs other → given.last ≡ other.last → given ≡ other }
{}

/// A law: an insertion is undone while the index is built, after the builder took its page: each reply is allowed,
/// and the builder's insertion of the pair is rejected.
pub fn undone_insertion_is_served()
    ensures { ServesAll (opened opening) (standing_at 0) script (records_over opening steps) last standing }
{}
