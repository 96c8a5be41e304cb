//! What is taken back of a seat and of an acknowledgement, at the end.
ghost use Rattle.std.specs.Prelude.{◌≡◌, ◌≤◌, Some, slice_get};
ghost use Rattle.locked_core.specs.Locked.{locked_of};

use crate::seat::{Ack, Seat};
use board::View;
use locked_core::{Group, Locked, Memory};
use threads_sessions::{Keeping, Registry, Session};

impl<B: Group, A: Memory, K: Keeping> Seat<B, A, K> {
    /// A look of `finish`, once it has all seats: the seat's session is the one under the lock. Nothing changes.
    pub fn compare(&mut self, registry: &Registry<A>, locked: &mut Locked<B, A>)
        requires { registry.now ≡ B.site.table }
        ensures before { slice_get (locked_of locked.old).book self.old.number ≡ Some self.old.session }
        ensures seat { self.new ≡ self.old }
        ensures same { locked_of locked.new ≡ locked_of locked.old }
    {
        locked.compare_seat(registry, &mut self.part);
    }

    /// The session.
    pub fn into_session(self) -> Session<A, K>
        ensures { result ≡ self.session }
    {
        let Seat {
            part,
            view: _,
            mark: _,
        } = self;
        part.into_session()
    }
}

impl<B: Group> Ack<B> {
    /// The view of the board that saw a horizon which reached the ticket's record.
    pub fn into_view(self) -> View
        ensures view { result ≡ self.sight }
        ensures board { result.board ≡ B.site.board }
        ensures reached { self.ticket.«record» ≤ result.horizon }
    {
        let Ack {
            ticket: _,
            view,
            site: _,
        } = self;
        view
    }
}
