//! What is to become of an entry.
ghost use Rattle.std.specs.Prelude.{◌≡◌, IsSome, IsTrue, ◌↔◌, None, Some};
ghost use Rattle.online_model.specs.World.{IsPassed};
ghost use Rattle.online_plan.specs.Plans.{IsCleaned, attempt_plan, clean_plan};
ghost use Rattle.online_model.specs.declared.note.Note.TheVariants.{EntryIs};

use online_model::{Life, Note};
use record_values::{Mark, Pair, compare_pairs};

/// The host is about to change the row that has the pair, takes the pair from a row again, or is to give it to a row:
/// the entry becomes marked, whatever it was. A change marks the pair that its row has, before the row changes.
pub fn plan_mark(pair: &Pair) -> Note
    ensures { result ≡ EntryIs pair.now (Some Mark.Marked) }
{
    Note::EntryIs(*pair, Some(Mark::Marked))
}

/// The row has the pair now: the entry becomes visible, whatever it was.
pub fn plan_put(pair: &Pair) -> Note
    ensures { result ≡ EntryIs pair.now (Some Mark.Live) }
{
    Note::EntryIs(*pair, Some(Mark::Live))
}

/// The builder attempts the pair: it becomes visible where it has no entry. An entry that is there stays as it is, be
/// it visible or marked, and there is no note.
pub fn plan_attempt(pair: &Pair, present: Option<Mark>) -> Option<Note>
    ensures { result ≡ attempt_plan pair.now present }
{
    match present {
        None => Some(Note::EntryIs(*pair, Some(Mark::Live))),
        Some(_) => None,
    }
}

// Whether no builder comes to the pair, also not after a stop.
fn is_passed(life: &Life, pair: &Pair) -> bool
    ensures { IsTrue result ↔ IsPassed life.now pair.now }
{
    match life {
        Life::Building { highest: None } => false,
        Life::Building {
            highest: Some(highest),
        } => !compare_pairs(highest, pair).is_lt(),
        Life::Complete => true,
    }
}

/// The cleaner takes the entry out where it is marked and the builder has passed it for good, as the life of the index
/// says that the host has recorded.
pub fn plan_clean(pair: &Pair, present: Option<Mark>, life: &Life) -> Option<Note>
    ensures cleaned { IsSome result ↔ IsCleaned pair.now present life.now }
    ensures note { result ≡ clean_plan pair.now result }
{
    if present == Some(Mark::Marked) && is_passed(life, pair) {
        Some(Note::EntryIs(*pair, None))
    } else {
        None
    }
}
