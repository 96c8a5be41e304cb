//! A law of a store that holds nothing.
ghost use Rattle.record_values.specs.GeometryValue.{GeometryValue};
ghost use Rattle.model.specs.Given.{nothing};
ghost use Rattle.core_model.specs.Histories.{CanOpen};
ghost use Rattle.restart.specs.Store.{over};

/// A law: a run may begin over a store that was just formatted, which holds nothing.
pub fn nothing_opens()
    ensures { (g : GeometryValue) → CanOpen (over g nothing) }
{}
