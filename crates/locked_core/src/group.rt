//! What the types of one group of seats name.
use std::marker::Brand;

/// Names the queue, the registry, the board and the core's beginning of one group of seats.
pub trait Group {
    ghost use Rattle.locked_core.specs.Names.{Names};

    ghost site: { Names };
}

impl Group for Brand {
    ghost use Rattle.locked_core.specs.Names.{no_names};

    ghost site = { no_names };
}
