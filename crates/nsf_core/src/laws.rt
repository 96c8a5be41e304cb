//! Laws of what calls leave.
ghost use Rattle.std.specs.Prelude.{◌≡◌, ◌≢◌, Some, [], ℕ};
ghost use Rattle.record_values.specs.Values.{Place};
ghost use Rattle.record_values.specs.declared.error.Error.{Error};
ghost use Rattle.record_values.specs.declared.row.Row.{Row};
ghost use Rattle.txn_table.specs.Table.{TxnState};
ghost use Rattle.records.specs.ChangeValue.{ChangeValue};
ghost use Rattle.model.specs.Pairs.{is_indexed};
ghost use Rattle.core_model.specs.Changes.{Changes, ◌▹◌};
ghost use Rattle.core_model.specs.Invariants.{IsWellFormed};
ghost use Rattle.core_model.specs.Records.{action_of};
ghost use Rattle.core_model.specs.States.{State};
ghost use Rattle.core_model.specs.Steps.{IsActive, Next, Start, Undo, txn_at};
ghost use Rattle.nsf_core.specs.Steps.{forward_made, forward_record, undo_made, undo_record};
ghost use Rattle.core_model.specs.Events.{Event, Refused, Reply, Standing, standing_after};
ghost use Rattle.core_model.specs.Replies.{after_any};
ghost use Rattle.core_parts.specs.View.{Answers, CoreValue, IsSafe, IsState, Serves};
ghost use Rattle.core_parts.specs.Moves.{IsUnready, OwesNone, txn_shown};

/// A law: whatever state a core stands for, an answer leaves it standing for the state after its step.
pub fn each_answer()
    ensures { (old new : CoreValue) (s : State) (k : Standing) (e : Event) (reply : Reply) → IsState old s k
        → (a : Answers old s k e reply new) → IsState new (after_any s a.step) (standing_after k reply) }
{}

/// A law: the record of each step of a change, and of its undo, is that of the step of `core_steps` that comes after
/// those that were made.
pub fn each_change()
    ensures first { (s : State) (t : ℕ) (c : ChangeValue)
        → action_of s (Start t c) ≡ forward_record (is_indexed s.life) t c 0 }
    ensures next { (s : State) (t : ℕ) → IsWellFormed s → IsActive s t → (older : Changes) (c : ChangeValue)
        → (txn_at s t).changes ≡ older ▹ c
        → action_of s (Next t) ≡ forward_record (is_indexed s.life) t c
        (forward_made (is_indexed s.life) c (txn_at s t).phase) }
    ensures undo { (s : State) (t : ℕ) → IsWellFormed s → IsActive s t → (older : Changes) (c : ChangeValue)
        → (txn_at s t).changes ≡ older ▹ c
        → action_of s (Undo t) ≡ undo_record (is_indexed s.life) t c
        (undo_made (is_indexed s.life) c (txn_at s t).phase) }
{}

/// A law: a call that is refused, be it for want of memory, leaves the core as it was.
pub fn refused_calls()
    ensures { (old new : CoreValue) (e : Event) (error : Error) → IsSafe old → Serves old e (Refused error) new
        → new ≡ old }
{}

/// A law: which events of an active transaction are to be skipped. A change, or a commit, of one that owes a step or is
/// rolling back; the next step of one that owes none; and the end of one that has a change left.
pub fn skipped_events()
    ensures insert { (v : CoreValue) (t : ℕ) (row : Row) → IsUnready (txn_shown v t)
        → Serves v (Event.Insert t row) Reply.Skipped v }
    ensures delete { (v : CoreValue) (t : ℕ) (r : Place) → IsUnready (txn_shown v t)
        → Serves v (Event.Delete t r) Reply.Skipped v }
    ensures update { (v : CoreValue) (t : ℕ) (r : Place) (row : Row) → IsUnready (txn_shown v t)
        → Serves v (Event.Update t r row) Reply.Skipped v }
    ensures commit { (v : CoreValue) (t : ℕ) → IsUnready (txn_shown v t) → Serves v (Event.Commit t) Reply.Skipped v }
    ensures step { (v : CoreValue) (t : ℕ) → OwesNone (txn_shown v t) → Serves v (Event.Step t) Reply.Skipped v }
    ensures end { (v : CoreValue) (t : ℕ) (x : TxnState) → txn_shown v t ≡ Some x → x.changes ≢ []
        → Serves v (Event.End t) Reply.Skipped v }
{}
