//! The board, and the steps on it.
ghost use Rattle.std.specs.Prelude.{◌≡◌, ◌≤◌, ℕ, true, false, [], ◌∷◌, max, IfOk, IsTrue};
ghost use Rattle.board.specs.Views.{BuilderCount, FlusherCount, IsNoted, Sighting, leaves_as, nothing_published};
ghost use Rattle.board.specs.Views.{nothing_seen, stays_as};

use crate::knowledge::Knowledge;
use crate::rule::{
    BoardRule, Compare, CutBuilder, CutReader, CutView, HearStop, Learn, NoteMark, RaiseHorizon,
    RaiseProgress, ReadFailed, ReadHorizon, ReadMark, ReadProgress, ReadStop, SetFailed, SetStop,
    TellBuilt, TellFlushed, TellSeen,
};
use crate::views::{BuildView, FlushView, NewFlushView, View};
use crate::waits::Waits;
use atomic_table::Table;
use std::alloc::{AllocError, Allocator};
use std::marker::Model;

const HORIZON: usize = 0;

const PROGRESS: usize = 1;

const FAILED: usize = 2;

const STOP: usize = 3;

const MARK: usize = 4;

/// Five words that threads share by a `&`, and what they sleep on. To a contract a board is its identity, which each of
/// its views names.
#[derive(Drop)]
pub struct Board<A: Allocator> {
    table: Table<(), Knowledge, (), BoardRule, A>,
    waits: Waits,
}

impl<A: Allocator> Model for Board<A> {
    ghost use Rattle.std.specs.Prelude.{◌≡◌};
    ghost use Rattle.atomic_table.specs.Seated.{TableId, table_id_coded};

    ghost Value = { TableId };

    ghost coded = { table_id_coded };

    ghost view = { λ b. b.table.shared.table_id };

    ghost invariant = { λ b. b.table.shared.table_id.words ≡ 5 };
}

impl<A: Allocator> Board<A> {
    /// A board with nothing published, the flusher's view, the builder's, and a first one for the other threads.
    ///
    /// The error is that the memory for the five words was refused.
    pub fn new(alloc: A) -> Result<(Board<A>, NewFlushView, BuildView, View), AllocError>
        ensures flush { IfOk result (λ r. r.1 ≡ nothing_published r.0) }
        ensures build { IfOk result (λ r. r.2 ≡ record { board = r.0; progress = 0; stopped = false }) }
        ensures view { IfOk result (λ r. r.3 ≡ nothing_seen r.0) }
    {
        let (table, mut seat) = Table::of_words(alloc, &[0; 5], &())?;
        let builder = table.shared.split_seat::<CutBuilder>(&mut seat);
        let reader = table.shared.split_seat::<CutReader>(&mut seat);
        Ok((
            Board {
                table,
                waits: Waits::new(),
            },
            NewFlushView { seat },
            BuildView { seat: builder },
            View { seat: reader },
        ))
    }

    /// What the threads that share the board sleep on.
    pub fn waits(&self) -> &Waits {
        &self.waits
    }

    /// Makes a view for another thread, which has seen as much as this one. Each of the two has a name of its own from
    /// now on, and no word changes.
    pub fn another(&self, view: &mut View) -> View
        requires { view.old.board ≡ self.now }
        ensures stays { view.new ≡ record view.old { name = stays_as view.old.name } }
        ensures leaves { result ≡ record view.old { name = leaves_as view.old.name; stops = false } }
    {
        let shared = &self.table.shared;
        let seat = shared.split_seat::<CutView>(&mut view.seat);
        View { seat }
    }

    /// The flusher raises the horizon to the number of a record, and notes it with a mark of its own choice. A number
    /// that is not above its own count raises nothing. Those who wait for the horizon are woken.
    pub fn publish(&self, view: &mut FlushView, horizon: u64, mark: u64)
        requires { view.old.board ≡ self.now }
        ensures { view.new ≡ record view.old {
          horizon = max view.old.horizon horizon;
          notes = record { horizon = max view.old.horizon horizon; mark = mark } ∷ view.old.notes;
        } }
    {
        let shared = &self.table.shared;
        shared.store::<NoteMark>(&mut view.seat, MARK, mark);
        let before = shared.fetch_max::<RaiseHorizon>(&mut view.seat, HORIZON, horizon);
        if before < horizon {
            self.waits.published.ring();
        }
    }

    /// Reads the horizon: the number up to which the flusher has published that records are safe on the device. It is
    /// never below one that this view saw before.
    pub fn horizon(&self, view: &mut View) -> u64
        requires { view.old.board ≡ self.now }
        ensures seen { view.new ≡ record view.old { horizon = result; checked = false } }
        ensures rises { view.old.horizon ≤ result }
    {
        let shared = &self.table.shared;
        shared.load::<ReadHorizon>(&mut view.seat, HORIZON)
    }

    /// Reads a mark that the flusher has noted, or 0 where it has noted none. It is the last one as it is read, but no
    /// clause says so. The view keeps beside it the horizon that it has seen by now. That one was noted with this mark,
    /// or is below one that was (`settle`).
    pub fn mark(&self, view: &mut View) -> u64
        requires { view.old.board ≡ self.now }
        ensures seen { view.new ≡ record view.old { mark = result; safe = view.old.horizon } }
    {
        let shared = &self.table.shared;
        shared.load::<ReadMark>(&mut view.seat, MARK)
    }

    /// The builder raises the count of its attempts. A number that is not above its own count changes nothing.
    pub fn raise_progress(&self, view: &mut BuildView, progress: u64)
        requires { view.old.board ≡ self.now }
        ensures { view.new ≡ record view.old { progress = max view.old.progress progress } }
    {
        let shared = &self.table.shared;
        shared.fetch_max::<RaiseProgress>(&mut view.seat, PROGRESS, progress);
    }

    /// Reads the count of attempts that the builder has published. It is never below one that this view saw before.
    pub fn progress(&self, view: &mut View) -> u64
        requires { view.old.board ≡ self.now }
        ensures seen { view.new ≡ record view.old { progress = result } }
        ensures rises { view.old.progress ≤ result }
    {
        let shared = &self.table.shared;
        shared.load::<ReadProgress>(&mut view.seat, PROGRESS)
    }

    /// The flusher sets the failed flag, which says that its device failed. It stays set. Those who wait for the
    /// horizon are woken.
    pub fn fail(&self, view: &mut FlushView)
        requires { view.old.board ≡ self.now }
        ensures { view.new ≡ record view.old { failed = true } }
    {
        let shared = &self.table.shared;
        shared.store::<SetFailed>(&mut view.seat, FAILED, 1);
        self.waits.published.ring();
    }

    /// Reads the failed flag. It stays true once this view has seen it. The view has then checked it behind the last
    /// horizon that it read.
    pub fn failed(&self, view: &mut View) -> bool
        requires { view.old.board ≡ self.now }
        ensures seen { view.new ≡ record view.old { failed = result; checked = true } }
        ensures stays { IsTrue view.old.failed → IsTrue result }
    {
        let shared = &self.table.shared;
        shared.load::<ReadFailed>(&mut view.seat, FAILED) == 1
    }

    /// Sets the stop flag, which asks all threads to stop, and wakes all that sleep. It stays set.
    pub fn stop(&self, view: &mut View)
        requires { view.old.board ≡ self.now }
        ensures { view.new ≡ record view.old { stopped = true; stops = true } }
    {
        let shared = &self.table.shared;
        shared.store::<SetStop>(&mut view.seat, STOP, 1);
        self.waits.ring_all();
    }

    /// Reads the stop flag. It stays true once this view has seen it.
    pub fn stopped(&self, view: &mut View) -> bool
        requires { view.old.board ≡ self.now }
        ensures seen { view.new ≡ record view.old { stopped = result } }
        ensures stays { IsTrue view.old.stopped → IsTrue result }

        // Where the view was never made two, nobody else can have set the flag.
        ensures alone { view.old.name ≡ [] → IsTrue result → IsTrue view.old.stops }
    {
        let shared = &self.table.shared;
        shared.load::<ReadStop>(&mut view.seat, STOP) == 1
    }

    /// The flusher reads the stop flag. It stays true once this view has seen it.
    pub fn stopped_flusher(&self, view: &mut FlushView) -> bool
        requires { view.old.board ≡ self.now }
        ensures seen { view.new ≡ record view.old { stopped = result } }
        ensures stays { IsTrue view.old.stopped → IsTrue result }
    {
        let shared = &self.table.shared;
        shared.load::<HearStop>(&mut view.seat, STOP) == 1
    }

    /// The builder reads the stop flag. It stays true once this view has seen it.
    pub fn stopped_builder(&self, view: &mut BuildView) -> bool
        requires { view.old.board ≡ self.now }
        ensures seen { view.new ≡ record view.old { stopped = result } }
        ensures stays { IsTrue view.old.stopped → IsTrue result }
    {
        let shared = &self.table.shared;
        shared.load::<HearStop>(&mut view.seat, STOP) == 1
    }

    /// One thread that holds the flusher's view and another, as at the end, has them compared. It learns that no
    /// horizon which the other has seen is above the flusher's own count, and that a failed flag which it has seen is
    /// true. Some horizon was noted with its mark that reaches the one which it had seen then (`noted`). The other view
    /// has now seen all that the flusher has published, so it reads no less from now on.
    pub fn settle(&self, flush: &mut FlushView, view: &mut View)
        requires flush { flush.old.board ≡ self.now }
        requires view { view.old.board ≡ self.now }
        ensures same { flush.new ≡ flush.old }
        ensures horizon { view.old.horizon ≤ flush.old.horizon }
        ensures noted { IsNoted flush.old.notes view.old.safe view.old.mark }
        ensures failed { IsTrue view.old.failed → IsTrue flush.old.failed }
        ensures informed { view.new ≡ record view.old { horizon = flush.old.horizon; failed = flush.old.failed } }
    {
        let shared = &self.table.shared;
        let seen = shared.split_seat::<TellSeen>(&mut view.seat);
        shared.join_seat::<Learn>(&mut flush.seat, seen);
        shared.load::<Compare>(&mut flush.seat, HORIZON);
        let published = shared.split_seat::<TellFlushed>(&mut flush.seat);
        shared.join_seat::<Learn>(&mut view.seat, published);
    }

    /// One thread that holds the builder's view and another has them compared. It learns that no progress which the
    /// other has seen is above the builder's own count. The other view has now seen all that the builder has
    /// published, so it reads no less from now on.
    pub fn settle_progress(&self, build: &mut BuildView, view: &mut View)
        requires build { build.old.board ≡ self.now }
        requires view { view.old.board ≡ self.now }
        ensures same { build.new ≡ build.old }
        ensures progress { view.old.progress ≤ build.old.progress }
        ensures informed { view.new ≡ record view.old { progress = build.old.progress } }
    {
        let shared = &self.table.shared;
        let seen = shared.split_seat::<TellSeen>(&mut view.seat);
        shared.join_seat::<Learn>(&mut build.seat, seen);
        shared.load::<Compare>(&mut build.seat, HORIZON);
        let published = shared.split_seat::<TellBuilt>(&mut build.seat);
        shared.join_seat::<Learn>(&mut view.seat, published);
    }
}
