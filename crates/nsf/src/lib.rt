//! A table with a secondary index that is built while transactions go on, and that survives a crash at any moment: all
//! that a program names to use it, in one crate.
//!
//! # One thread
//!
//! A store is made on a device, opened, and served one request after another.
//!
//! ```
//! fn serve_all(engine: &mut Engine<MemDisk<Global>, Global>) -> Result<(), Error> {
//!     let Reply::Txn(txn) = granted(engine.serve(Event::Begin))? else {
//!         return Err(Error::NoSuchTxn);
//!     };
//!     let key = Key::new(b"ant")?;
//!     let body = Body::new(b"1")?;
//!     granted(engine.serve(Event::Insert { txn, key, body }))?;
//!     granted(engine.serve(Event::Commit { txn }))?;
//!     granted(engine.serve(Event::Create))?;
//!     engine.build_to_end()?;
//!     granted(engine.flush_all())?;
//!     Ok(())
//! }
//!
//! fn fill(alloc: Global, mut disk: MemDisk<Global>, geometry: Geometry) -> Result<MemDisk<Global>, Error> {
//!     format_store(&mut disk, geometry)?;
//!     match restart(alloc, disk) {
//!         Ok(mut engine) => {
//!             let served = serve_all(&mut engine);
//!             let disk = engine.into_device();
//!             served?;
//!             Ok(disk)
//!         }
//!         Err((error, _)) => Err(error),
//!     }
//! }
//! ```
//!
//! The device of a file comes by `open_or_create(rt, alloc, path, geometry)`, which opens it, or makes a store in a new
//! one; `create_store` makes it a new one alone.
//!
//! What `restart`, `run`, `serve`, `build_to_end` and `flush_all` promise is in their contracts. `granted` is the
//! program's own: it makes an error of a reply that tells that nothing was done (`Refused`, `Skipped`, `LogFull`).
//!
//! The index is read in order by `scan`, a page of a range at a time, and `count` counts. They ask for a core: that of
//! an engine is `engine.core()`, whose `counts` tells how many rows and entries there are, at once. Here the range is
//! the keys that begin with a prefix.
//!
//! ```
//! fn first_two(alloc: Global, core: &Core<Global>, prefix: Key) -> Result<(Page<Global>, Page<Global>), Error> {
//!     let range = KeyRange::prefix(prefix);
//!     let first = scan(alloc, core, &range, None, 100)?;
//!     let second = scan(alloc, core, &range, first.next.as_ref(), 100)?;
//!     Ok((first, second))
//! }
//! ```
//!
//! A page's `next` is the pair behind which the next page begins, and none where nothing is left of the range. The laws
//! `each_page` and `each_reading` say what pages have together. `scan_back` reads a range from its end; of it the laws
//! `each_page_back` and `each_reading_back` say the same.
//!
//! Rows are read as they are now, also before their transaction's commit. `get_committed`, `find_committed` and
//! `scan_committed` read them as if no transaction were active; the law `each_committed` says that this is what the
//! history tells. Calls of these names read so of what is shared.
//!
//! # Many threads
//!
//! Each client has a thread of its own and a seat of its own; other threads build the index, clean it and write to the
//! device. Where clients commit and wait for that, `serve_led` is the call: each writes what it waits for itself, while
//! nobody else writes. A client's calls are then those of its connection, and for all else those of what is shared.
//!
//! ```
//! impl LedClient for Put {
//!     fn work<B: Group, R: Wait, W: Waiting<B>>(
//!         &mut self,
//!         connection: &Connection<'_, B, R, W>,
//!         seat: &mut Seat<B>,
//!     ) {
//!         self.refused = connection.put(seat, self.key, self.body).err();
//!     }
//! }
//!
//! match serve_led(rt, alloc, disk, clients) {
//!     Ok(served) => ..,
//!     Err((error, disk)) => ..,
//! }
//! ```
//!
//! A refusal of `put` and `commit` tells whether nothing was committed, or what is committed may be lost.
//!
//! Clients that seldom wait are better served by `serve`. There a thread of its own writes as soon as there is
//! something, and clients wait by `await_ack` of what is shared. This one makes a transaction of several steps.
//!
//! ```
//! impl Put {
//!     fn put_in<B: Group, R: Wait>(
//!         &self,
//!         rt: &R,
//!         shared: &Shared<B>,
//!         seat: &mut Seat<B>,
//!         txn: Txn,
//!     ) -> Result<Ticket, Error>
//!         ensures { seat.new.number ≡ seat.old.number }
//!     {
//!         let change = shared.insert_if_ready(rt, seat, txn, self.key, Body::new(b"")?)?;
//!         match change.rest {
//!             Some(error) => Err(error),
//!             None => shared.commit_if_ready(rt, seat, txn),
//!         }
//!     }
//!
//!     fn put<B: Group, R: Wait>(&self, rt: &R, shared: &Shared<B>, seat: &mut Seat<B>) -> Result<(), Error>
//!         ensures { seat.new.number ≡ seat.old.number }
//!     {
//!         let txn = shared.begin(rt, seat)?;
//!         match self.put_in(rt, shared, seat, txn) {
//!             Ok(ticket) => {
//!                 shared.await_ack(rt, seat, ticket)?;
//!                 Ok(())
//!             }
//!             Err(error) => {
//!                 shared.abort(rt, seat, txn)?;
//!                 Err(error)
//!             }
//!         }
//!     }
//! }
//!
//! impl Client for Put {
//!     fn work<B: Group, R: Wait>(
//!         &mut self,
//!         rt: &R,
//!         shared: &Shared<B>,
//!         seat: &mut Seat<B>,
//!         _builder: &BuilderEnd<B>,
//!     ) {
//!         self.done = self.put(rt, shared, seat);
//!     }
//! }
//!
//! match serve(rt, alloc, disk, clients) {
//!     Ok(served) => ..,
//!     Err((error, disk)) => ..,
//! }
//! ```
//!
//! A seat reads the index in order by `scan` of what is shared, a page in one hold of the lock, and `count` counts. The
//! page is that of a core that may lie under the lock, and has all that the seat did.
//!
//! ```
//! fn first_with<B: Group, R: Wait>(
//!     &self,
//!     rt: &R,
//!     shared: &Shared<B>,
//!     seat: &mut Seat<B>,
//! ) -> Result<Option<Pair>, Error>
//!     ensures { seat.new.number ≡ seat.old.number }
//! {
//!     let range = KeyRange::prefix(self.prefix);
//!     let page = shared.scan(rt, self.alloc, seat, &range, None, 1)?;
//!     Ok(page.pairs.first().copied())
//! }
//! ```
//!
//! A client of either kind may say by a ghost member `works` what its work makes of it, where it finds its seat so and
//! leaves it so; these say nothing. One that keeps a number as `safe` says `after.safe ≤ last.sight.horizon`: then that
//! record isn't lost. One that says `after.safe ≤ last.sight.safe` keeps it at any moment since the mark that its seat
//! has read last.
//!
//! A client's crate needs no proof of its own for the types that threads share: `serve` and `serve_led` pick the group,
//! and start the threads. Where a client calls in a loop, the loop's invariant says that the seat is the same one, in a
//! file `Invariants.antt` of the function:
//!
//! ```antt
//! abbrev pub invariant-loop-key : goal.invariant-loop-key
//! invariant-loop-key g l = l.seat.number ≡ l.fn.seat.number
//! ```
//!
//! A program that starts threads itself opens the store by `open_store`, or by `open_engine` where an engine served it
//! before: nothing that the engine holds is lost. It calls a function that is generic in the group with `Brand`. That
//! one starts the store by `store.start::<B, ToldCommits>()`; what its seats have done is told to contracts alone then.
//! By `store.start::<B, KeptCommits>()` their commits are kept, and `finish` gives them. The caller says in its
//! `Invariants.antt` what the group's names are, as here for a function `work`:
//!
//! ```antt
//! abbrev pub ghosts-work : goal.ghosts-work
//! ghosts-work g a = record { site = a.store.site }
//! ```
//!
//! That what is shared may go to other threads is `Rattle.nsf.proofs.Crosses.shared_sync`.
//!
//! A store of version 1 of the format is told as `OldVersion`. `old_geometry` tells its geometry. `migrate` moves it to
//! another device, which has to have the sectors of that geometry in version 2 (`Geometry::sectors`), and opens it
//! there.
//!
//! What calls leave, and what may be opened again, laws say (`left_by_threads` and the others below). A program calls a
//! law to cite it; the call does nothing.
//!
//! # What is promised
//!
//! Of one thread: the contracts of `restart`, and above them `live_through` and `live_on` of `headline`.
//!
//! Of many: all clients of `serve` or `serve_led` have worked, each with a new seat of its own. Then a crash leaves
//! what was opened with the commits of these seats set over it, up to some record. That isn't before any horizon that
//! one of the seats has read; and where nothing was refused, it has all (`leaves`). Nor is it before one at any
//! moment since `see` was called, once clients and loops had ended (`leaves` of `serve_and_see`). At any moment since
//! the one that a mark is of which a seat has read, it isn't before the horizon that this seat had seen then
//! (`marked`). What was left may be opened again (the law `left_by_threads`). Why not all was written is told
//! (`why`), and how the builder ended. Above `serve` stands `live_beside` of `headline`. Only tested (`test_nsf`):
//! `fill`, and both kinds of `Put`.
//!
//! Lemmas that crates above may cite, in `proofs`: `SeatOrders` (of `threads_lifetime`).
#![tactic(auto)]

mod clients;
mod connection;
mod files;
mod led;

pub use clients::Client;
pub use clients::Served;
pub use clients::serve;
pub use clients::serve_and_see;
pub use connection::CommitError;
pub use connection::Connection;
pub use connection::PutError;
pub use connection::Waiting;
pub use core_committed::each_committed;
pub use core_committed::find_committed;
pub use core_committed::get_committed;
pub use core_committed::scan_committed;
pub use core_scan::KeyRange;
pub use core_scan::Page;
pub use core_scan::count;
pub use core_scan::each_page;
pub use core_scan::each_page_back;
pub use core_scan::each_reading;
pub use core_scan::each_reading_back;
pub use core_scan::each_visible;
pub use core_scan::scan;
pub use core_scan::scan_back;
pub use files::FileError;
pub use files::create_store;
pub use files::open_or_create;
pub use led::LedClient;
pub use led::serve_led;
pub use model::Life;
pub use nsf_core::BuildReply;
pub use nsf_core::CleanReply;
pub use nsf_core::Core;
pub use nsf_core::Counts;
pub use nsf_core::Ticket;
pub use records::BODY_MAX;
pub use records::Body;
pub use records::Error;
pub use records::Geometry;
pub use records::KEY_MAX;
pub use records::Key;
pub use records::Mark;
pub use records::Pair;
pub use records::Rid;
pub use records::Row;
pub use records::SLOTS_PER_PAGE;
pub use records::Txn;
pub use restart::Engine;
pub use restart::Event;
pub use restart::MigrateError;
pub use restart::Reply;
pub use restart::every_story;
pub use restart::migrate;
pub use restart::restart;
pub use sector_device::Device;
pub use sector_device::Failed;
pub use sector_device::Fate;
pub use sector_device::FaultDisk;
pub use sector_device::MemDisk;
pub use sector_device::SECTOR_SIZE;
pub use sector_device::Which;
pub use shared::Ack;
pub use shared::BuildPart;
pub use shared::Change;
pub use shared::CleanPart;
pub use shared::Group;
pub use shared::GroupView;
pub use shared::Keeping;
pub use shared::Kept as KeptCommits;
pub use shared::LoopParts;
pub use shared::Memory;
pub use shared::Placed;
pub use shared::Refusal;
pub use shared::Seat;
pub use shared::Shared;
pub use shared::Told as ToldCommits;
pub use shared::each_refusal;
pub use store_file as file;
pub use store_moving::NotVersionOne;
pub use store_moving::old_geometry;
pub use threads_flusher::FlushPart;
pub use threads_leader::BuilderEnd;
pub use threads_leader::Ended;
pub use threads_leader::Gate;
pub use threads_leader::NoGate;
pub use threads_leader::NoThread;
pub use threads_leader::NotRun;
pub use threads_leader::Point;
pub use threads_leader::Told;
pub use threads_leader::build_loop;
pub use threads_leader::clean_loop;
pub use threads_leader::flush_loop;
pub use threads_leader::run_beside;
pub use threads_lifetime::Closed;
pub use threads_lifetime::OpenError;
pub use threads_lifetime::OpenStore;
pub use threads_lifetime::Parts;
pub use threads_lifetime::finish;
pub use threads_lifetime::format_store;
pub use threads_lifetime::left_by_a_run;
pub use threads_lifetime::left_by_an_opening;
pub use threads_lifetime::left_by_threads;
pub use threads_lifetime::let_go;
pub use threads_lifetime::open_engine;
pub use threads_lifetime::open_store;
pub use threads_lifetime::sound_or_not;
pub use threads_sessions::Commit;
