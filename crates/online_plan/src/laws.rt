//! Plans, and steps of the host, in the machine of `online_model`.
ghost use Rattle.std.specs.Prelude.{◌≡◌, [], ◌∷◌, None, Some};
ghost use Rattle.std.specs.FinMap.{get};
ghost use Rattle.record_values.specs.declared.pair.Mark.{Mark};
ghost use Rattle.record_values.specs.declared.pair.Pair.{Pair};
ghost use Rattle.online_index.specs.Builds.{listed};
ghost use Rattle.online_model.specs.Logs.{notes_of};
ghost use Rattle.online_model.specs.World as step;
ghost use Rattle.online_model.specs.World.{CanClean, IsEnabled, Step, World, after};
ghost use Rattle.online_model.specs.declared.note.Note.TheVariants.{EntryIs};
ghost use Rattle.online_plan.specs.Building.{BuilderValue, Follows};
ghost use Rattle.online_plan.specs.Plans.{IsCleaned, IsOfHost, attempt_plan, set_in};

/// A law: in every world, what a plan sets are the entries after the step, and its note is that of the step. The plan
/// of an attempt, and that of the cleaner, are made with the entry as it is in that world.
pub fn every_plan()
    ensures mark { (w : World) (p : Pair)
        → (set_in w.entries (Some (EntryIs p (Some Mark.Marked))) ≡ (after w (step.Mark p)).entries)
        × (notes_of w (step.Mark p) ≡ EntryIs p (Some Mark.Marked) ∷ []) }
    ensures put { (w : World) (p : Pair)
        → (set_in w.entries (Some (EntryIs p (Some Mark.Live))) ≡ (after w (step.Put p)).entries)
        × (notes_of w (step.Put p) ≡ EntryIs p (Some Mark.Live) ∷ []) }
    ensures attempt { (w : World) (p : Pair)
        → (set_in w.entries (attempt_plan p (get w.entries p)) ≡ (after w (step.Attempt p)).entries)
        × (notes_of w (step.Attempt p) ≡ listed (attempt_plan p (get w.entries p))) }
    ensures clean { (w : World) (p : Pair) → IsCleaned p (get w.entries p) w.life → CanClean w p
        × (set_in w.entries (Some (EntryIs p None)) ≡ (after w (step.Clean p)).entries)
        × (notes_of w (step.Clean p) ≡ EntryIs p None ∷ []) }
{}

/// A law: a builder follows the host: after a change of rows or entries that the host makes by an enabled step, it
/// follows that world.
pub fn every_step_of_the_host()
    ensures { (v : BuilderValue) (w : World) (e : Step) → Follows v w → IsOfHost e → IsEnabled w e
        → Follows v (after w e) }
{}
