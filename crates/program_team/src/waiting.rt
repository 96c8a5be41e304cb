//! How a writer waits until its commit is safe.
ghost use Rattle.std.specs.Prelude.{IfErr, IfOk};
ghost use Rattle.shared.specs.Waits.{IsAcked, IsNotAcked};

use nsf_core::Ticket;
use records::Error;
use sector_device::Device;
use shared::{Ack, Group, Kept, Seat, Shared};
use std::alloc::Global;
use std::sync::Wait;
use threads_leader::{Course, Desk};

/// How a writer waits until its commit is safe, with the answers of `Shared::await_ack`, and what it does meanwhile.
pub(crate) trait Waiting<B: Group> {
    fn await_ack<R: Wait>(
        &self,
        rt: &R,
        shared: &Shared<B>,
        seat: &mut Seat<B, Global, Kept>,
        ticket: Ticket,
    ) -> Result<Ack<B>, Error>
        ensures acked { IfOk result (λ ack. IsAcked ticket seat.old seat.new ack) }
        ensures refused { IfErr result (λ e. IsNotAcked ticket seat.old seat.new e) };
}

/// It writes what it waits for, where nobody else does.
impl<K: Course<D, Global>, B: Group, D: Device> Waiting<B> for Desk<K, B, D> {
    fn await_ack<R: Wait>(
        &self,
        rt: &R,
        shared: &Shared<B>,
        seat: &mut Seat<B, Global, Kept>,
        ticket: Ticket,
    ) -> Result<Ack<B>, Error>
        ensures acked { IfOk result (λ ack. IsAcked ticket seat.old seat.new ack) }
        ensures refused { IfErr result (λ e. IsNotAcked ticket seat.old seat.new e) }
    {
        Desk::await_ack(self, rt, shared, seat, ticket)
    }
}
