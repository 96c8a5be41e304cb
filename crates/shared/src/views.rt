//! Views of the board for threads that have no seat.
ghost use Rattle.std.specs.Prelude.{◌≡◌, ◌≢◌, ◌≤◌, false, true, IfSome, IsTrue, unwrap_or};
ghost use Rattle.board.specs.Views.{leaves_as, stays_as};
ghost use Rattle.threads_flusher.specs.Parts.{has_failed, synced_of};
ghost use Rattle.threads_flusher.specs.Part.{IsSafeSince};

use crate::seat::{Seat, mark_in};
use crate::shared::Shared;
use board::View;
use locked_core::{Group, Memory};
use sector_device::Device;
use std::marker::{Model, PhantomData};
use threads_flusher::FlushPart;
use threads_sessions::Keeping;

/// A view of the group's board for a thread that has no seat, as a loop. To a contract it is a `Sighting`.
#[derive(Drop)]
pub struct GroupView<B: Group> {
    pub(crate) view: View,
    pub(crate) site: PhantomData<B>,
}

impl<B: Group> Model for GroupView<B> {
    ghost use Rattle.std.specs.Prelude.{◌≡◌};
    ghost use Rattle.board.specs.Views.{Sighting};

    ghost Value = { Sighting };

    ghost view = { λ v. v.view };

    ghost invariant = { λ v. v.view.board ≡ B.site.board };
}

impl<B: Group, A: Memory> Shared<B, A> {
    /// Makes a view of the board for a thread that has no seat. It has seen what the seat has.
    pub fn another_view<K: Keeping>(&self, seat: &mut Seat<B, A, K>) -> GroupView<B>
        ensures view { result ≡ record seat.old.sight { name = leaves_as seat.old.sight.name; stops = false } }
        ensures seat { seat.new ≡ record seat.old
            { sight = record seat.old.sight { name = stays_as seat.old.sight.name } } }
    {
        GroupView {
            view: self.board.another(&mut seat.view),
            site: PhantomData,
        }
    }
}

impl<B: Group> GroupView<B> {
    /// Makes a view for one more thread that has no seat. It has seen what this one has.
    pub fn another_view<A: Memory>(&mut self, shared: &Shared<B, A>) -> GroupView<B>
        ensures stays { self.new ≡ record self.old { name = stays_as self.old.name } }
        ensures leaves { result ≡ record self.old { name = leaves_as self.old.name; stops = false } }
    {
        GroupView {
            view: shared.board.another(&mut self.view),
            site: PhantomData,
        }
    }

    /// The horizon: the number of the last record that the flusher has published as safe on the device.
    pub fn horizon<A: Memory>(&mut self, shared: &Shared<B, A>) -> u64
        ensures seen { self.new ≡ record self.old { horizon = result; checked = false } }
        ensures rises { self.old.horizon ≤ result }
    {
        shared.board.horizon(&mut self.view)
    }

    /// A mark, as `Shared::mark` answers it. The view keeps beside it the horizon that it has seen by now.
    pub fn mark<A: Memory>(&mut self, shared: &Shared<B, A>) -> Option<u64>
        ensures seen { self.new ≡ record self.old { mark = unwrap_or result 0; safe = self.old.horizon } }
        ensures marked { IfSome result (λ mark. mark ≢ 0) }
    {
        mark_in(shared.board.mark(&mut self.view))
    }

    /// Whether the flusher has published that its device failed. It stays true once this view has seen it.
    pub fn failed<A: Memory>(&mut self, shared: &Shared<B, A>) -> bool
        ensures seen { self.new ≡ record self.old { failed = result; checked = true } }
        ensures stays { IsTrue self.old.failed → IsTrue result }
    {
        shared.board.failed(&mut self.view)
    }

    /// Compares what this view has seen with what the flusher has published: no horizon that it has seen is above the
    /// last synced record, and a failed flag that it has seen is true. The horizon that it had seen with its mark was
    /// published at the moment that this marks, or before, unless the mark is 0. Nothing changes but the view, which
    /// has now seen the horizon and the failed flag that were published.
    pub fn settle<D: Device, A: Memory>(
        &mut self,
        shared: &Shared<B, A>,
        flush: &mut FlushPart<B, D, A>,
    )
        ensures same { flush.new ≡ flush.old }
        ensures horizon { self.old.horizon ≤ flush.old.published.horizon }
        ensures synced { self.old.horizon ≤ synced_of flush.old.writer }
        ensures noted { IsSafeSince D.marks flush.old.publications self.old.safe self.old.mark }
        ensures failed { IsTrue self.old.failed → has_failed flush.old.writer ≡ true }
        ensures informed { self.new ≡ record self.old {
          horizon = flush.old.published.horizon;
          failed = flush.old.published.failed;
        } }
    {
        flush.settle(&shared.board, &mut self.view);
    }

    /// Sets the stop flag, by which all threads are asked to stop. It takes no memory and waits for nothing. (That
    /// those that sleep are woken, no clause says.)
    pub fn stop<A: Memory>(&mut self, shared: &Shared<B, A>)
        ensures { self.new ≡ record self.old { stopped = true; stops = true } }
    {
        shared.board.stop(&mut self.view);
    }

    /// Whether all threads are asked to stop. It stays true once this view has seen it. (Who asked, no clause says.)
    pub fn stopped<A: Memory>(&mut self, shared: &Shared<B, A>) -> bool
        ensures seen { self.new ≡ record self.old { stopped = result } }
        ensures stays { IsTrue self.old.stopped → IsTrue result }
    {
        shared.board.stopped(&mut self.view)
    }

    /// How many attempts the builder has made since the store was opened, as it has published.
    pub fn progress<A: Memory>(&mut self, shared: &Shared<B, A>) -> u64
        ensures seen { self.new ≡ record self.old { progress = result } }
        ensures rises { self.old.progress ≤ result }
    {
        shared.board.progress(&mut self.view)
    }
}
