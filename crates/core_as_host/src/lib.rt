//! The store keeps the duties of a host: a law that ties the store's own machine (`core_model`) to that of an index
//! and its host (`online_model`).
//!
//! Proved: as the store creates its index, its table and its index are a world that was just created; and each step of
//! the store, whichever it is but dropping the index, is steps of host and index that `IsEnabled` of that machine
//! allows, one after another (`core_is_a_host`). So a change of a row in steps, a rollback in steps, the reading of a
//! page, and the cleaner, as this store makes them, keep what a host owes. The store asks more of itself than it owes:
//! it cleans no entry of a row that a transaction holds, and it reserves room for what a change may add.
//!
//! A stop is the step `Reopen`, after which the store's rollbacks go on as before. Not proved here: that the data which
//! a restart computes of a log are those to which these rollbacks lead. Nothing here runs.
#![tactic(auto)]

ghost use Rattle.std.specs.Prelude.{◌≡◌, ◌≢◌, List};
ghost use Rattle.core_model.specs.Invariants.{Invariant, IsOneBuild, Runs};
ghost use Rattle.core_model.specs.States.{State};
ghost use Rattle.core_model.specs.Steps.{Create, Drop, IsEnabled, MachineStep, after};
ghost use Rattle.online_model.specs.Keeping.{IsCreated};
ghost use Rattle.online_model.specs.World.{Reopen, World, after as world_after};
ghost use Rattle.core_as_host.specs.Hosting.{GetsTo, IsWorldOf, reopened};

/// A law: an index that the store creates is just created in the world of host and index too. Whatever step the store
/// then makes, and so whatever run of it that doesn't drop the index, the world gets by enabled steps to one that is
/// the store after it. Where the store stops, the world after `Reopen` is what the store is before it takes unfinished
/// changes back, by steps of its own.
pub fn core_is_a_host()
    ensures begins { (s : State) → Invariant s → IsEnabled s Create
        → (w : World) × IsCreated w × IsWorldOf (after s Create) w }
    ensures goes_on { (s : State) (w : World) (e : MachineStep) → Invariant s → IsWorldOf s w → IsEnabled s e
        → e ≢ Drop → GetsTo w (after s e) }
    ensures every_run { (s s' : State) (w : World) (steps : List MachineStep) → Invariant s → IsWorldOf s w
        → Runs s steps s' → IsOneBuild steps → GetsTo w s' }
    ensures reopens { (s : State) (w : World) → Invariant s → IsWorldOf s w → Invariant (reopened s)
        × IsWorldOf (reopened s) (world_after w Reopen) }
{}
