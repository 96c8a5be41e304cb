//! Laws of copies.
ghost use Rattle.std.specs.Prelude.{◌≡◌, List};
ghost use Rattle.record_values.specs.GeometryValue.{GeometryValue};
ghost use Rattle.records.specs.RecordValue.{RecordValue};
ghost use Rattle.model.specs.Cells.{Cells, cells_after};
ghost use Rattle.model.specs.Given.{opening_cells};
ghost use Rattle.txn_table.specs.Sound.{IsSoundTable};
ghost use Rattle.core_model.specs.Histories.{CanOpen, Opened, opened};
ghost use Rattle.core_model.specs.Invariants.{IsWellFormed};
ghost use Rattle.core_model.specs.Records.{HasCells, action_of, set_by_any};
ghost use Rattle.core_model.specs.States.{State};
ghost use Rattle.core_model.specs.Steps.{IsEnabled, MachineStep, after};
ghost use Rattle.core_model.specs.Events.{Event, Reply, Standing};
ghost use Rattle.core_model.specs.Served.{HasServed};
ghost use Rattle.core_parts.specs.View.{CoreValue, IsState};
ghost use Rattle.core_copies.specs.Lists.{HasLists};
ghost use Rattle.core_copies.specs.Shown.{IsCellsOf, IsOfGeometry};

/// A law: a core has one set of cells.
pub fn one_copy()
    ensures { (v : CoreValue) (a b : Cells) → IsCellsOf v a → IsCellsOf v b → a ≡ b }
{}

/// A law: the log has a list of each transaction that holds a row, and of no other, from the opening on and after each
/// step. So the cells that it has are those of the core.
pub fn each_list()
    ensures begins { (o : Opened) → HasLists (opened o) (opening_cells o.given) }
    ensures goes_on { (s : State) (e : MachineStep) (cells : Cells) → IsWellFormed s → IsEnabled s e → HasLists s cells
        → HasLists (after s e) (set_by_any cells (action_of s e)) }
    ensures shown { (v : CoreValue) (s : State) (k : Standing) (cells : Cells) → IsSoundTable v.txns → IsState v s k
        → HasCells s cells → HasLists s cells → IsCellsOf v cells }
{}

/// A law: of a core that replied to some calls since it was opened, the records that it made leave its cells over those
/// of the opening, and it has the store's pages and places.
pub fn made_cells()
    ensures shown { (o : Opened) → CanOpen o
        → (made : List RecordValue) (pairs : List (Event × Reply)) (v : CoreValue) (s : State) (k : Standing)
        → HasServed o made pairs s k → IsSoundTable v.txns → IsState v s k
        → IsCellsOf v (cells_after (opening_cells o.given) made) }
    ensures store { (o : Opened) (made : List RecordValue) (pairs : List (Event × Reply)) (v : CoreValue) (s : State)
        (k : Standing) → HasServed o made pairs s k → IsState v s k → (g : GeometryValue) → g.pages ≡ o.pages
        → g.entries ≡ o.places → IsOfGeometry v g }
{}
