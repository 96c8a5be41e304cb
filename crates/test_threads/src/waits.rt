//! How a seat waits until its commit is safe.
use crate::at_seat::Numbered;
use nsf_core::Ticket;
use records::Error;
use sector_device::Device;
use shared::{Group, Memory, Shared};
use std::sync::Wait;
use threads_leader::{Course, Desk};

/// How a seat waits until its commit is safe. It promises nothing.
pub(crate) trait Waits<B: Group, A: Memory> {
    /// Waits until the record of a ticket is safe.
    fn wait<R: Wait>(
        &self,
        rt: &R,
        shared: &Shared<B, A>,
        at: &mut Numbered<B, A>,
        ticket: Ticket,
    ) -> Result<(), Error>;
}

/// The flusher writes what a seat waits for.
pub(crate) struct ByFlusher;

impl<B: Group, A: Memory> Waits<B, A> for ByFlusher {
    fn wait<R: Wait>(
        &self,
        rt: &R,
        shared: &Shared<B, A>,
        at: &mut Numbered<B, A>,
        ticket: Ticket,
    ) -> Result<(), Error> {
        match shared.await_ack(rt, &mut at.seat, ticket) {
            Ok(_) => Ok(()),
            Err(error) => Err(error),
        }
    }
}

/// The seat writes what it waits for, where nobody else does.
impl<C: Course<D, A>, B: Group, D: Device, A: Memory> Waits<B, A> for Desk<C, B, D, A> {
    fn wait<R: Wait>(
        &self,
        rt: &R,
        shared: &Shared<B, A>,
        at: &mut Numbered<B, A>,
        ticket: Ticket,
    ) -> Result<(), Error> {
        match self.await_ack(rt, shared, &mut at.seat, ticket) {
            Ok(_) => Ok(()),
            Err(error) => Err(error),
        }
    }
}
