//! What the threads share, made before it has its names.
ghost use Rattle.std.specs.Prelude.{◌≡◌, [], false, length, IfErr, IfOk};
ghost use Rattle.nsf_core.specs.Value.{value_of};
ghost use Rattle.record_values.specs.declared.error.Error.TheVariants.{NoMemory};
ghost use Rattle.threads_sessions.specs.Halves.{IsNew};
ghost use Rattle.shared.specs.Openings.{IsJustOpened, IsOpening, names_of};
ghost use Rattle.shared.specs.Seats.{AreNewSeats, HasSeenNothing};

use crate::builder::BuildPart;
use crate::cleaner::CleanPart;
use crate::quiet::Quiet;
use crate::seat::Seat;
use crate::shared::Shared;
use board::{Board, BuildView, NewFlushView, View};
use locked_core::{Group, Locked, Memory, SeatPart};
use nsf_core::Core;
use records::Error;
use std::alloc::Global;
use std::marker::PhantomData;
use std::sync::Mutex;
use threads_flusher::FlushEnds;
use threads_queue::{Popper, Pusher, RecordQueue};
use threads_sessions::{Half, Keeping, Registry, Told};

/// What is made for the threads, before it has its names.
#[derive(Drop)]
pub struct Opening<A: Memory = Global> {
    pub(crate) alloc: A,
    pub(crate) core: Core<A>,
    pub(crate) queue: RecordQueue<A>,
    pub(crate) pusher: Pusher<A>,
    pub(crate) popper: Popper<A>,
    pub(crate) registry: Registry<A>,
    pub(crate) book: Vec<Half<A>, A>,
    pub(crate) halves: Vec<Half<A>, A>,
    pub(crate) board: Board<A>,
    pub(crate) flush: NewFlushView,
    pub(crate) build: BuildView,
    pub(crate) view: View,
}

/// What the threads are given before the flusher has its part: the seats, what that part is made of, and the parts of
/// the builder and the cleaner.
#[derive(Drop)]
pub struct FirstParts<B: Group, A: Memory = Global, K: Keeping = Told> {
    pub seats: Vec<Seat<B, A, K>, A>,
    pub ends: FlushEnds<A>,
    pub build: BuildPart<B>,
    pub clean: CleanPart<B>,
}

/// Makes what so many threads with a seat each share.
///
/// The one error is `NoMemory`.
pub fn open<A: Memory>(alloc: A, core: Core<A>, count: usize) -> Result<Opening<A>, Error>
    ensures made { IfOk result (λ o. IsOpening count o) }
    ensures core { IfOk result (λ o. value_of o.core ≡ value_of core) }
    ensures no_memory { IfErr result (λ e. e ≡ NoMemory) }
{
    let Ok(queues) = RecordQueue::new(alloc) else {
        drop(core);
        return Err(Error::NoMemory);
    };
    let Ok(table) = Registry::open(alloc, count) else {
        drop(queues);
        drop(core);
        return Err(Error::NoMemory);
    };
    let Ok(boards) = Board::new(alloc) else {
        drop(table);
        drop(queues);
        drop(core);
        return Err(Error::NoMemory);
    };
    let (queue, pusher, popper) = queues;
    let (registry, book, halves) = table;
    let (board, flush, build, view) = boards;
    Ok(Opening {
        alloc,
        core,
        queue,
        pusher,
        popper,
        registry,
        book,
        halves,
        board,
        flush,
        build,
        view,
    })
}

impl<A: Memory> Opening<A> {
    /// What the threads share, and their parts. `K` says whether the seats' commits are kept in memory.
    ///
    /// The one error is `NoMemory`.
    pub fn start<B: Group, K: Keeping>(self) -> Result<(Shared<B, A>, FirstParts<B, A, K>), Error>
        requires names { names_of self ≡ B.site }
        requires made { IsOpening B.site.seats self }
        requires opened { IsJustOpened (value_of self.core) }
        ensures seats { IfOk result (λ r. AreNewSeats B.site.board B.site.seats r.1.seats.items) }
        ensures popper { IfOk result (λ r. r.1.ends.popper ≡ record { queue = B.site.queue; records = [] }) }
        ensures flush { IfOk result (λ r. r.1.ends.published
            ≡ record { board = B.site.board; horizon = 0; failed = false; stopped = false; notes = [] }) }
        ensures build { IfOk result (λ r. r.1.build ≡ record { progress = 0; stopped = false }) }
        ensures clean { IfOk result (λ r. HasSeenNothing B.site.board r.1.clean) }
        ensures no_memory { IfErr result (λ e. e ≡ NoMemory) }
    {
        let Opening {
            alloc,
            core,
            queue,
            pusher,
            popper,
            registry,
            book,
            halves,
            board,
            flush,
            build,
            mut view,
        } = self;
        let clean_view = board.another(&mut view);
        let clean = CleanPart::new(clean_view);
        let seats = match seats_of::<B, A, K>(alloc, &board, view, halves) {
            Ok(seats) => seats,
            Err(error) => {
                drop((core, queue, pusher, popper, registry, book, board));
                return Err(error);
            }
        };
        let locked = Locked::<B, A>::new(core, pusher, book);
        let shared = Shared {
            locked: Mutex::new(locked),
            queue,
            registry,
            board,
            quiet: Quiet::unwanted(),
            site: PhantomData,
        };
        let parts = FirstParts {
            seats,
            ends: FlushEnds::new(popper, flush),
            build: BuildPart::new(build),
            clean,
        };
        Ok((shared, parts))
    }
}

// A seat for each half.
fn seats_of<B: Group, A: Memory, K: Keeping>(
    alloc: A,
    board: &Board<A>,
    mut view: View,
    halves: Vec<Half<A>, A>,
) -> Result<Vec<Seat<B, A, K>, A>, Error>
    requires board { board.now ≡ B.site.board }
    requires view { HasSeenNothing B.site.board view }
    requires counted { length halves.items ≡ B.site.seats }
    requires halves { IsNew B.site.table halves.items }
    ensures seats { IfOk result (λ v. AreNewSeats B.site.board B.site.seats v.items) }
    ensures no_memory { IfErr result (λ e. e ≡ NoMemory) }
{
    let mut seats = Vec::with_capacity(alloc, halves.len())?;
    let mut number = 0;
    for half in halves {
        let view = board.another(&mut view);
        let part = SeatPart::new(alloc, number, half);
        seats.push_reserved(Seat {
            part,
            view,
            mark: 0,
        });
        number += 1;
    }
    Ok(seats)
}
