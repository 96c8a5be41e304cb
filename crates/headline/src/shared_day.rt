//! A day of clients.
use nsf::Ticket;
use records::Error;

/// How a day of clients ends: where the store stops.
#[derive(Clone, Copy, Debug, PartialEq, Eq)]
pub enum End {
    /// Behind all that was done.
    Behind,
    /// At any moment since the clients and the loops beside them had ended, while the rest is written out.
    Closing,
    /// At any moment since the one that the mark is of which this client has read last (`Shared::mark`), amid all that
    /// others do. Clients count from 0. Where there is no such client, or it has read none, it ends as `Opening`.
    Since(usize),
    /// At any moment since the opening began, also one at which the clients had ended.
    Opening,
}

/// Clients that use a store on one day beside one another, and how that ends.
#[derive(Drop)]
pub struct SharedDay<C> {
    pub clients: Vec<C>,
    pub end: End,
}

/// What came of a day of clients: they, in their order, each as its work has left it; what was told of the builder; and
/// why not all was written to the device, if so. Where the store stopped earlier, `built` and `written` were told later
/// than that.
#[derive(Drop)]
pub struct SharedAnswer<C> {
    pub clients: Vec<C>,
    pub built: Result<Ticket, Error>,
    pub written: Result<(), Error>,
}
