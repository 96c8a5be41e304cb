//! A board of five words that threads read and write without a lock: how far the log is safe on the device, how far the
//! builder of the index has come, whether the device failed, whether the threads are to stop, and a mark.
//!
//! A thread steps with a view, a token that it owns and that takes no bytes. The flusher has the [`FlushView`] and
//! alone raises the horizon, notes a mark with it, or says that the device failed. The board gives it as a
//! [`NewFlushView`], of whose type it is known that nothing was published with it. The builder has the [`BuildView`]
//! and alone raises the progress. Both also read the stop flag. Every other thread has a [`View`]: it reads the five
//! words and may set the stop flag.
//!
//! Threads that have nothing to do sleep on the bells of the board, which its steps ring ([`Waits`]). Nothing rests on
//! a ring: each sleep ends by itself.
//!
//! Only [`Board::new`] takes memory. Every other call cannot fail and returns at once with its answer, though no clause
//! says that it takes no memory and waits for nothing. `publish` makes two atomic steps, and each other read or write
//! of a word is one.
//!
//! Proved: what each call does to the view that it steps with, and nothing else (`seen`, `stays`, `leaves`). No horizon
//! or progress is read below one that the view saw (`rises`). `settle` tells that no horizon which another view saw is
//! above the flusher's count (`horizon`), and that some horizon was noted with its mark that reaches the one which it
//! had seen as it read that mark, or both are 0 (`noted`). The flusher's own count is what is published: that it is at
//! most what is synced, and what a mark marks, is kept by the type above. Neither: that a read is of now, that the mark
//! read is the last one, that a ring wakes anyone, that a thread gets on, or fairness.
#![tactic(auto)]

mod board;
mod knowledge;
mod rule;
mod views;
mod waits;

pub use board::Board;
pub use views::{BuildView, FlushView, NewFlushView, View};
pub use waits::{Bell, Waits};
