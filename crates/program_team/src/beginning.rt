//! What is done to a store before the writers begin.
ghost use Rattle.std.specs.Prelude.{◌≡◌};

use crate::rows::set_up;
use model::Life;
use records::Error;
use shared::{Group, Kept, Seat, Shared};
use std::alloc::Global;
use std::sync::Wait;

/// What is done to a store before the writers begin.
#[derive(Clone, Copy)]
pub enum Beginning {
    /// It is new: a hundred rows are put, and its index is created.
    New,
    /// It is left as it was found, but its index is created where it has none.
    Found,
}

// Creates the index, where there is none.
fn create_where_none<B: Group, R: Wait>(
    rt: &R,
    shared: &Shared<B>,
    seat: &mut Seat<B, Global, Kept>,
) -> Result<(), Error>
    ensures { seat.new.number ≡ seat.old.number }
{
    match shared.life(rt, seat) {
        Life::Absent => {
            shared.create_index(rt, seat)?;
            Ok(())
        }
        _ => Ok(()),
    }
}

/// Does what is to be done to the store.
pub(crate) fn prepare<B: Group, R: Wait>(
    rt: &R,
    shared: &Shared<B>,
    seat: &mut Seat<B, Global, Kept>,
    beginning: Beginning,
) -> Result<(), Error>
    ensures { seat.new.number ≡ seat.old.number }
{
    match beginning {
        Beginning::New => set_up(rt, shared, seat),
        Beginning::Found => create_where_none(rt, shared, seat),
    }
}
