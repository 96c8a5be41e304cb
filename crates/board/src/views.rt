//! The tokens that threads step with. They have no bytes.
ghost use Rattle.std.specs.Prelude.{◌≡◌};
ghost use Rattle.board.specs.Views.{nothing_published};

use crate::knowledge::Knowledge;
use atomic_table::Seat;
use std::marker::Model;

/// What one thread has seen of a board. To a contract it is a `Sighting`.
#[derive(Drop)]
pub struct View {
    pub(crate) seat: Seat<(), Knowledge>,
}

impl Model for View {
    ghost use Rattle.std.specs.Prelude.{◌≡◌, []};
    ghost use Rattle.board.specs.Views.{Sighting, sighting_of, IsThread};

    ghost Value = { Sighting };

    ghost view = { λ v. sighting_of v.seat.table_id v.seat.me.0 };

    ghost invariant = { λ v. (v.seat.me.1 ≡ []) × IsThread v.seat.me.0 };
}

/// What the flusher has published on a board. To a contract it is a `FlusherCount`.
#[derive(Drop)]
pub struct FlushView {
    pub(crate) seat: Seat<(), Knowledge>,
}

impl Model for FlushView {
    ghost use Rattle.std.specs.Prelude.{◌≡◌, [], true};
    ghost use Rattle.board.specs.Views.{FlusherCount, flusher_count_of};

    ghost Value = { FlusherCount };

    ghost view = { λ v. flusher_count_of v.seat.table_id v.seat.me.0 };

    ghost invariant = { λ v. (v.seat.me.1 ≡ []) × (v.seat.me.0.flushes ≡ true) };
}

/// The flusher's view as the board gives it. Nothing was published with it, and nothing can be until it begins. To a
/// contract it is a `FlusherCount`.
#[derive(Drop)]
pub struct NewFlushView {
    pub(crate) seat: Seat<(), Knowledge>,
}

impl Model for NewFlushView {
    ghost use Rattle.std.specs.Prelude.{◌≡◌, [], true};
    ghost use Rattle.board.specs.Views.{FlusherCount, flusher_count_of, nothing_published};

    ghost Value = { FlusherCount };

    ghost view = { λ v. flusher_count_of v.seat.table_id v.seat.me.0 };

    ghost invariant = { λ v. (v.seat.me.1 ≡ []) × (v.seat.me.0.flushes ≡ true)
        × (flusher_count_of v.seat.table_id v.seat.me.0 ≡ nothing_published v.seat.table_id) };
}

impl NewFlushView {
    /// The same view, to publish with. Nothing was published with it before.
    pub fn begin(self) -> FlushView
        ensures same { result ≡ self }
        ensures nothing { result ≡ nothing_published result.board }
    {
        let NewFlushView { seat } = self;
        FlushView { seat }
    }
}

/// What the builder has published on a board. To a contract it is a `BuilderCount`.
#[derive(Drop)]
pub struct BuildView {
    pub(crate) seat: Seat<(), Knowledge>,
}

impl Model for BuildView {
    ghost use Rattle.std.specs.Prelude.{◌≡◌, [], true};
    ghost use Rattle.board.specs.Views.{BuilderCount, builder_count_of};

    ghost Value = { BuilderCount };

    ghost view = { λ v. builder_count_of v.seat.table_id v.seat.me.0 };

    ghost invariant = { λ v. (v.seat.me.1 ≡ []) × (v.seat.me.0.builds ≡ true) };
}
