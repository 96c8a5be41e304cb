//! Seats, and who plays at them.
ghost use Rattle.std.specs.Prelude.{◌≡◌, [], IfOk, IsTrue};
ghost use Rattle.threads_lifetime.specs.Gathered.{AreAllSeats};
ghost use Rattle.shared.specs.Seats.{AreNewSeats};

use crate::at_seat::Numbered;
use crate::calls::Calls;
use shared::{Group, Kept, Seat};
use std::alloc::{AllocError, Global};
use std::vec::IntoIter;

/// No more than so many are there side by side.
pub(crate) const THREADS_MAX: usize = 64;

/// One that plays at a seat.
pub trait Player {
    /// What it does. It may be let play more than once.
    fn play<C: Calls>(&mut self, seat: &mut C);
}

/// Who plays at a seat.
#[derive(Drop)]
pub(crate) struct Chair<B: Group, P> {
    pub(crate) at: Numbered<B, Global>,
    pub(crate) player: P,
}

// Gives each seat to the next of those that wait, and puts them into a list that is empty.
fn seat_all<B: Group, P: Drop>(
    chairs: &mut Vec<Chair<B, P>>,
    seats: Vec<Seat<B, Global, Kept>>,
    waiting: &mut IntoIter<P, Global>,
) -> Result<(), AllocError>
    requires none { chairs.old.items ≡ [] }
    requires new { AreNewSeats B.site.board B.site.seats seats.items }
{
    for seat in seats {
        let Some(player) = waiting.next() else {
            return Err(AllocError);
        };
        let number = chairs.len();
        let at = Numbered { seat, number };
        chairs.push(Chair { at, player })?;
    }
    Ok(())
}

/// Gives each of them a seat, both in their order. `AllocError` also where there are fewer players than seats.
pub(crate) fn chairs_of<B: Group, P: Drop>(
    alloc: Global,
    seats: Vec<Seat<B, Global, Kept>>,
    players: Vec<P>,
) -> Result<Vec<Chair<B, P>>, AllocError>
    requires { AreNewSeats B.site.board B.site.seats seats.items }
{
    let mut chairs = Vec::new(alloc);
    let mut waiting = players.into_iter();
    match seat_all(&mut chairs, seats, &mut waiting) {
        Ok(()) => Ok(chairs),
        Err(error) => {
            drop(chairs);
            Err(error)
        }
    }
}

// Whether this is the next number, where all before were.
fn is_next(ordered: bool, number: usize, next: usize) -> bool
    ensures { IsTrue result → IsTrue ordered × (number ≡ next) }
{
    ordered && number == next
}

/// The seats of all, and who played there. `AllocError` also where they are not so many, each at its number.
pub(crate) fn parted<B: Group, P: Drop>(
    alloc: Global,
    chairs: Vec<Chair<B, P>>,
    count: usize,
) -> Result<(Vec<Seat<B, Global, Kept>>, Vec<P>), AllocError>
    ensures { IfOk result (λ r. AreAllSeats count r.0.items) }
{
    let mut seats = Vec::with_capacity(alloc, count)?;
    let mut players = Vec::with_capacity(alloc, count)?;
    let mut ordered = true;
    for chair in chairs {
        let Chair { at, player } = chair;
        ordered = is_next(ordered, at.number, seats.len());
        seats.push(at.seat)?;
        players.push(player)?;
    }
    if ordered && seats.len() == count {
        Ok((seats, players))
    } else {
        Err(AllocError)
    }
}
