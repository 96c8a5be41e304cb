//! Places of rows.
use std::marker::Model;

/// How many slots a page has.
pub const SLOTS_PER_PAGE: u16 = 63;

/// The place of a row: a page, and a slot of it.
#[derive(Clone, Copy, Debug, PartialEq, Eq, PartialOrd, Ord)]
pub struct Rid {
    pub page: u32,
    pub slot: u16,
}

impl Model for Rid {
    ghost use Rattle.std.specs.Prelude.{◌<◌};
    ghost use Rattle.record_values.specs.Values.{Place};
    ghost use Rattle.record_values.specs.declared.rid.TheConstants.{SLOTS_PER_PAGE};

    ghost Value = { Place };

    ghost view = { λ r. record { page = r.page; slot = r.slot } };

    ghost invariant = { λ r. r.slot < SLOTS_PER_PAGE };

    ghost inverse = { λ r. record { page = r.page; slot = r.slot } };
}
