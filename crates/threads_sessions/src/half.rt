//! The tokens. They have no bytes.
use crate::Session;
use crate::knowledge::Knowledge;
use atomic_table::Seat;
use std::alloc::{Allocator, Global};
use std::marker::Model;

/// One of the two halves of a session. To a contract it is a `HalfValue`.
#[derive(Drop)]
pub struct Half<A: Allocator = Global> {
    pub(crate) seat: Seat<Session<A>, Knowledge>,
}

impl<A: Allocator> Model for Half<A> {
    ghost use Rattle.std.specs.Prelude.{◌≡◌, []};
    ghost use Rattle.threads_sessions.specs.Halves.{HalfValue};

    ghost Value = { HalfValue };

    ghost view = { λ h. record {
      table = h.seat.table_id;
      number = h.seat.me.0.number;
      session = h.seat.me.0.session;
    } };

    ghost invariant = { λ h. (h.seat.me.1 ≡ []) × (h.seat.me.0.parts ≡ 1) };
}

/// Makes the halves of sessions. To a contract it is a `MakerValue`.
#[derive(Drop)]
pub(crate) struct HalfMaker<A: Allocator> {
    pub(crate) seat: Seat<Session<A>, Knowledge>,
}

impl<A: Allocator> Model for HalfMaker<A> {
    ghost use Rattle.std.specs.Prelude.{◌≡◌, [], true};
    ghost use Rattle.threads_sessions.specs.Halves.{MakerValue};

    ghost Value = { MakerValue };

    ghost view = { λ m. record { table = m.seat.table_id; next = m.seat.me.0.number } };

    ghost invariant = { λ m. (m.seat.me.1 ≡ []) × (m.seat.me.0.makes ≡ true) };
}
