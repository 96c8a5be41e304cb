//! The cleaner's part.
ghost use Rattle.std.specs.Prelude.{◌≡◌, IsTrue};

use crate::shared::Shared;
use board::View;
use locked_core::{Group, Memory};
use std::marker::{Model, PhantomData};

/// What the cleaner takes the lock with, and looks whether it is to stop. To a contract it is what it has seen of the
/// group's board, a `Sighting`.
#[derive(Drop)]
pub struct CleanPart<B: Group> {
    pub(crate) view: View,
    pub(crate) site: PhantomData<B>,
}

impl<B: Group> Model for CleanPart<B> {
    ghost use Rattle.std.specs.Prelude.{◌≡◌};
    ghost use Rattle.board.specs.Views.{Sighting};

    ghost Value = { Sighting };

    ghost view = { λ p. p.view };

    ghost invariant = { λ p. p.view.board ≡ B.site.board };
}

impl<B: Group> CleanPart<B> {
    // The part that has this view of the group's board.
    pub(crate) fn new(view: View) -> CleanPart<B>
        requires { view.board ≡ B.site.board }
        ensures { result ≡ view }
    {
        CleanPart {
            view,
            site: PhantomData,
        }
    }

    /// Whether all threads are asked to stop. It stays true once this part has seen it. (Who asked, no clause says.)
    pub fn stopped<A: Memory>(&mut self, shared: &Shared<B, A>) -> bool
        ensures seen { self.new ≡ record self.old { stopped = result } }
        ensures stays { IsTrue self.old.stopped → IsTrue result }
    {
        shared.board.stopped(&mut self.view)
    }
}
