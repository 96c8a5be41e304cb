//! What other threads have seen of the flusher's count, at the end.
ghost use Rattle.std.specs.Prelude.{◌≡◌, ◌≤◌, IsTrue, true};
ghost use Rattle.store_writer.specs.Parts.{has_failed, synced_of};

use crate::part::FlushPart;
use board::{Board, View};
use locked_core::{Group, Memory};
use sector_device::Device;

impl<B: Group, D: Device, A: Memory> FlushPart<B, D, A> {
    ghost use Rattle.threads_flusher.specs.Part.{IsSafeSince};

    /// Compares what another thread has seen of the board with what was published: no horizon that it has seen is above
    /// the last synced record, and a failed flag that it has seen is true. Nothing changes but the view, which has now
    /// seen the horizon and the failed flag that were published.
    ///
    /// The mark that it has read last, if it isn't 0, is of a publication, which reaches the horizon that it had seen
    /// then. So that horizon is kept by a crash at any moment since the one that the mark marks (`kept` of
    /// `IsFlusher`).
    pub fn settle(&mut self, board: &Board<A>, view: &mut View)
        requires board { board.now ≡ B.site.board }
        requires view { view.old.board ≡ board.now }
        ensures same { self.new ≡ self.old }
        ensures horizon { view.old.horizon ≤ self.old.published.horizon }
        ensures synced { view.old.horizon ≤ synced_of self.old.writer }
        ensures failed { IsTrue view.old.failed → has_failed self.old.writer ≡ true }
        ensures noted { IsSafeSince D.marks self.old.publications view.old.safe view.old.mark }
        ensures view { view.new ≡ record view.old {
          horizon = self.old.published.horizon;
          failed = self.old.published.failed;
        } }
    {
        self.stands();
        board.settle(&mut self.view, view);
    }
}
