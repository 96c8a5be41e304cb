//! The builder's part.
ghost use Rattle.std.specs.Prelude.{◌≡◌, ◌≤◌, IsTrue, max};

use crate::shared::Shared;
use crate::views::GroupView;
use board::BuildView;
use locked_core::{Group, Memory};
use std::marker::{Model, PhantomData};

/// What the builder publishes with on the group's board: how many attempts it has made. With it the builder takes the
/// lock, and looks whether it is to stop. To a contract it is a `BuildValue`.
#[derive(Drop)]
pub struct BuildPart<B: Group> {
    pub(crate) view: BuildView,
    pub(crate) site: PhantomData<B>,
}

impl<B: Group> Model for BuildPart<B> {
    ghost use Rattle.std.specs.Prelude.{◌≡◌};
    ghost use Rattle.shared.specs.Seats.{BuildValue};

    ghost Value = { BuildValue };

    ghost view = { λ p. record { progress = p.view.progress; stopped = p.view.stopped } };

    ghost invariant = { λ p. p.view.board ≡ B.site.board };
}

impl<B: Group> BuildPart<B> {
    // The part that has this view of the group's board.
    pub(crate) fn new(view: BuildView) -> BuildPart<B>
        requires { view.board ≡ B.site.board }
        ensures { result ≡ record { progress = view.progress; stopped = view.stopped } }
    {
        BuildPart {
            view,
            site: PhantomData,
        }
    }

    /// Raises the count of attempts that is published. A number that is not above it changes nothing.
    pub fn raise_progress<A: Memory>(&mut self, shared: &Shared<B, A>, progress: u64)
        ensures { self.new ≡ record self.old { progress = max self.old.progress progress } }
    {
        shared.board.raise_progress(&mut self.view, progress);
    }

    /// Whether all threads are asked to stop. It stays true once this part has seen it. (Who asked, no clause says.)
    pub fn stopped<A: Memory>(&mut self, shared: &Shared<B, A>) -> bool
        ensures seen { self.new ≡ record self.old { stopped = result } }
        ensures stays { IsTrue self.old.stopped → IsTrue result }
    {
        shared.board.stopped_builder(&mut self.view)
    }

    /// Compares what a view has seen with what was published: no count of attempts that it has seen is above the
    /// builder's own. Nothing changes but the view, which has now seen the count that was published.
    pub fn settle<A: Memory>(&mut self, shared: &Shared<B, A>, view: &mut GroupView<B>)
        ensures same { self.new ≡ self.old }
        ensures progress { view.old.progress ≤ self.old.progress }
        ensures informed { view.new ≡ record view.old { progress = self.old.progress } }
    {
        shared.board.settle_progress(&mut self.view, &mut view.view);
    }
}
