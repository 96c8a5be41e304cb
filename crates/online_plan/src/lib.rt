//! An index whose entries the host keeps itself, in its own store, with its own transactions: what is to become of an
//! entry, and a builder that has no entries.
//!
//! Each plan takes the present state of one entry and returns the note of what the entry becomes, or that nothing
//! changes (`plan_mark`, `plan_put`, `plan_attempt`, `plan_clean`). The host reads the entry, plans and sets it in one
//! transaction of its own. The builder (`Builder`) reads pages as that of `online_index` does, and hands out the pairs
//! to attempt in batches: for each the host reads the entry and sets what `plan_attempt` says, all in one transaction.
//!
//! Proved: a plan is the step of the machine of `online_model`, and its note that of the step, in every world that has
//! the entry as it was given (`every_plan`). The builder follows every world in which the host keeps its duties: each
//! attempt, checkpoint and end that it asks for is a step that is enabled there, and a step of the host's own leaves it
//! following (`Follows`, `every_step_of_the_host`). So what `online_model` says of every order of steps, it says of
//! entries that are kept so.
//!
//! A host owes two duties more than with `online_index`. The entry, its plan and the change of its row are of one
//! atomic transaction, or under one lock. And `attempted` and `recorded` are called only once that transaction is
//! committed.
#![tactic(auto)]

mod builder;
mod laws;
mod plans;

pub use builder::{Builder, Due};
pub use laws::{every_plan, every_step_of_the_host};
pub use plans::{plan_attempt, plan_clean, plan_mark, plan_put};
