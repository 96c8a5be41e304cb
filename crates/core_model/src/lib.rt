//! The core as an abstract machine: its steps, what every order of them keeps, and which reply each event may get.
//!
//! Proved, on plain data: every order of the steps keeps rows, entries, history and reserved places together
//! (`every_order`). A complete index with no transaction active is exact (`complete_index`). A restart at any stop
//! gives a prefix of the history (`any_stop`); so do a run's records, wherever they stop (`any_record`), and its log
//! (`each_log`). Each step sets the cell that its record names (`each_record`), which can follow those before it
//! (`each_record_follows`). Pairs are attempted in rising order (`rising_attempts`). An allowed reply is one step or
//! none (`each_reply`). Worked examples show that the premises can be met (`undone_insertion_is_rejected`,
//! `undone_insertion_is_served`). `IsAllowed` says which reply each event may get in a state, and the step that is made
//! with it; `items_of` which history events and replies tell. The replies decide which records are made with them, so
//! what some of these make, entries and all, is decided by how many they are (`all_replies`). Nothing here runs. That
//! code makes these steps, and replies so, is the contract of `nsf_core`.
//!
//! Lemmas about its public words that crates above may cite, in `proofs`: `Laws` and `ReplyLaws`.
#![tactic(auto)]

pub mod service;

ghost use Rattle.std.specs.Prelude.{◌≡◌, ◌≤◌, ◌+◌, ◌++◌, [], ℕ, List, Option, Some, length, map, take, true, IsTrue};
ghost use Rattle.records.specs.declared.record.Action.{Action};
ghost use Rattle.records.specs.RecordValue.{has_rows};
ghost use Rattle.model.specs.Cells.{Cells};
ghost use Rattle.core_model.specs.Records.{HasCells, action_of, set_by_any};
ghost use Rattle.std.specs.FinMap.{len};
ghost use Rattle.records.specs.RecordValue.{RecordValue};
ghost use Rattle.record_values.specs.declared.txn.TheConstants.{TXNS_MAX};
ghost use Rattle.model.specs.declared.write.Write.{Write};
ghost use Rattle.model.specs.Cells.{cells_after};
ghost use Rattle.model.specs.Following.{CanFollow};
ghost use Rattle.model.specs.Given.{IsBeginning, given_after, opening_cells, recovered};
ghost use Rattle.core_model.specs.Histories.{deeds_of, no_writes, writes_after};
ghost use Rattle.core_model.specs.Logs.{HasMade, IsLogOf, RecoversPrefix, item_at, items_from, one_record};
ghost use Rattle.core_model.specs.Logs.{records_from, records_over};
ghost use Rattle.model.specs.Images.{IsCopied};
ghost use Rattle.model.specs.declared.life.Life.TheVariants.{Building, Complete};
ghost use Rattle.model.specs.History.{Item, life_after, table_after};
ghost use Rattle.std.specs.FinMap.{get};
ghost use Rattle.record_values.specs.declared.pair.Mark.TheVariants.{Marked};
ghost use Rattle.record_values.specs.declared.pair.Pair.{Pair};
ghost use Rattle.core_model.specs.Example.{opening, steps, last, pair};
ghost use Rattle.core_model.specs.States.{State};
ghost use Rattle.record_values.specs.Orders.{is_above};
ghost use Rattle.core_model.specs.Steps.{Attempt, MachineStep, after, IsEnabled};
ghost use Rattle.core_model.specs.Invariants.{Invariant, IsOneBuild, IsWellFormed, Runs};
ghost use Rattle.core_model.specs.Histories.{Opened, CanOpen, FitsStore, opened, AreItemsOf, IsFaithful};
ghost use Rattle.core_model.specs.Histories.{ShowsJustTheRows, history};

/// A law: one enabled step, whichever it is, keeps a core well formed over whatever fits its store, and keeps the
/// invariant.
pub fn each_step()
    ensures begins { (o : Opened) → FitsStore o → IsWellFormed (opened o) }
    ensures fit { (s : State) (e : MachineStep) → IsWellFormed s → IsEnabled s e → IsWellFormed (after s e) }
    ensures invariant { (s : State) (e : MachineStep) → Invariant s → IsEnabled s e → Invariant (after s e) }
{}

/// A law: after any steps in any order the rows without the active transactions are the table of the history, each
/// live entry names a live row with its key, each row is in the index as far as that is built, and the entries with
/// the reserved places fit the geometry.
pub fn every_order()
    ensures { (o : Opened) → CanOpen o → (steps : List MachineStep) (s : State) → Runs (opened o) steps s
        → (items : List Item) → AreItemsOf items steps → IsFaithful s (table_after o.given.table items)
        × (s.life ≡ life_after o.given.life items) }
{}

/// A law: with a complete index and no transaction, the live entries are just the pairs of the rows.
pub fn complete_index()
    ensures { (o : Opened) → CanOpen o → (steps : List MachineStep) (s : State) → Runs (opened o) steps s
        → s.life ≡ Complete → ((t : ℕ) → s.txns t ≡ None) → ShowsJustTheRows s }
{}

/// A law: the builder attempts pairs in rising order, above the one that was checkpointed last, in this run or, as
/// long as the index is not dropped, before the core was opened.
pub fn rising_attempts()
    ensures rising { (s : State) (p : Pair) → IsEnabled s (Attempt p) → is_above s.bound p ≡ true }
    ensures checkpointed { (s : State) (p : Pair) → Invariant s → (highest : Option Pair) → s.life ≡ Building highest
        → IsEnabled s (Attempt p) → is_above highest p ≡ true }
    ensures opened { (o : Opened) (highest : Option Pair) → o.given.life ≡ Building highest
        → (steps : List MachineStep) (s : State) → Runs (opened o) steps s → IsOneBuild steps → (p : Pair)
        → IsEnabled s (Attempt p) → is_above highest p ≡ true }
{}

/// A law: wherever a run stops, what is recovered of its cells, every unfinished transaction taken back whichever of
/// its steps were made, is the table and the index's life of the history, and a core may begin with it.
pub fn any_stop()
    ensures { (o : Opened) → CanOpen o → (steps : List MachineStep) (s : State) → Runs (opened o) steps s
        → (items : List Item) → AreItemsOf items steps → (cells : Cells) → HasCells s cells → (last : ℕ)
        → ((recovered cells last).table ≡ table_after o.given.table items)
        × ((recovered cells last).life ≡ life_after o.given.life items)
        × CanOpen (record o { given = recovered cells last }) }
{}

/// A law: a step sets the cell that its record names, and no other; and the record is of a part that its change has.
pub fn each_record()
    ensures cells { (s : State) (e : MachineStep) (cells : Cells) → IsWellFormed s → IsEnabled s e → HasCells s cells
        → HasCells (after s e) (set_by_any cells (action_of s e)) }
    ensures rows { (s : State) (e : MachineStep) (action : Action) → IsWellFormed s → IsEnabled s e
        → action_of s e ≡ Some action → IsTrue (has_rows action) }
{}

/// A law: what is recovered of the records of a run, wherever they stop, is the table and the index's life of the
/// history up to the last of them; each live entry names a row with its key; and a core may begin with it.
pub fn any_record()
    ensures { (o : Opened) → CanOpen o → (steps : List MachineStep) (s : State) → Runs (opened o) steps s → (n : ℕ)
        → n ≤ length (records_over o steps) → RecoversPrefix o steps n }
{}

/// A law: a step's record can follow the records before it, where at most 16 transactions are active.
pub fn each_record_follows()
    ensures { (s : State) (e : MachineStep) (cells : Cells) (last : ℕ) (action : Action) → IsWellFormed s
        → IsEnabled s e → HasCells s cells → len s.pledges ≤ TXNS_MAX → action_of s e ≡ Some action
        → CanFollow s.pages last cells (record { number = last + 1; action = action }) }
{}

/// A law: the core and its log, step by step: what a core has made since it was opened sets what it holds, and each
/// beginning of it gives a beginning of the history, with which a core may begin.
pub fn each_log()
    ensures begins { (o : Opened) → HasMade o [] [] no_writes (opened o) }
    ensures goes_on { (o : Opened) → CanOpen o → (made : List RecordValue) (items : List Item) (writes : ℕ
        → List Write) (s : State) → HasMade o made items writes s → (e : MachineStep) → IsEnabled s e
        → len s.pledges ≤ TXNS_MAX
        → HasMade o (made ++ one_record (o.given.last + length made) (action_of s e))
        (items ++ map (item_at (o.given.last + length made)) (deeds_of writes e)) (writes_after writes e)
        (after s e) }
    ensures holds { (o : Opened) → CanOpen o → (made : List RecordValue) (items : List Item) (writes : ℕ
        → List Write) (s : State) → HasMade o made items writes s → Invariant s }
    ensures cells { (o : Opened) → CanOpen o → (made : List RecordValue) (items : List Item) (writes : ℕ
        → List Write) (s : State) → HasMade o made items writes s
        → HasCells s (cells_after (opening_cells o.given) made) }
    ensures recovers { (o : Opened) → CanOpen o → (made : List RecordValue) (items : List Item) (writes : ℕ
        → List Write) (s : State) → HasMade o made items writes s → (n : ℕ) → n ≤ length made
        → IsBeginning o.given items (o.given.last + n) (given_after o.given (take n made))
        × CanOpen (record o { given = given_after o.given (take n made) }) }
{}

/// A law of the log of a half: whatever cells of the state it begins over, each step's record can follow on it, and it
/// sets what the state has.
pub fn each_half()
    ensures begins { (pages base : ℕ) (cells : Cells) (s : State) → HasCells s cells → IsLogOf pages base cells [] s }
    ensures goes_on { (base : ℕ) (cells : Cells) (log : List RecordValue) (s : State) → IsWellFormed s
        → IsLogOf s.pages base cells log s → (e : MachineStep) → IsEnabled s e → len s.pledges ≤ TXNS_MAX
        → IsLogOf s.pages base cells (log ++ one_record (base + length log) (action_of s e)) (after s e) }
{}

/// A law: an insertion is undone while the index is built, after the builder took its page: the builder's insertion
/// of the pair is rejected, and the entry stays marked.
pub fn undone_insertion_is_rejected()
    ensures opens { CanOpen opening }
    ensures run { Runs (opened opening) steps last }
    ensures marked { get last.entries pair ≡ Some Marked }
    ensures complete { last.life ≡ Complete }
{}
