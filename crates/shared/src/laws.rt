//! Laws of what refused calls leave, and of what a wait is answered.
ghost use Rattle.std.specs.Prelude.{◌≡◌, ◌⊎◌, Option, Some, ℕ};
ghost use Rattle.record_values.specs.declared.error.Error.{Error};
ghost use Rattle.model.specs.declared.write.Write.{Write};
ghost use Rattle.core_model.specs.Events.{Event, Refused};
ghost use Rattle.core_model.specs.Histories.{Opened};
ghost use Rattle.core_parts.specs.declared.parts.Ticket.{Ticket};
ghost use Rattle.threads_sessions.specs.Values.{SessionValue};
ghost use Rattle.shared.specs.Changed.{HasChanged, IsGoingBack};
ghost use Rattle.shared.specs.Seats.{AckValue, SeatValue};
ghost use Rattle.shared.specs.Served.{HasUndone, WasAborted, WasServed, WasServedTo};
ghost use Rattle.shared.specs.Waits.{IsAcked, IsNotAcked};

use nsf_core::refused_calls;

/// A law: a call that was refused, for want of memory or for anything else, is made again, and goes on from where it
/// was. The core is as before, be it a step of a seat (`seat`) or of the builder (`core`): so the same step comes next.
/// A change of which a later step was refused, and that is carried on, is made as one that was not (`changed`). A
/// transaction that is taken back in several calls of `abort` is taken back as in one (`undone`, `aborted`).
pub fn each_refusal()
    ensures core { (o : Opened) (e : Event) (error : Error) (was : WasServed o e (Refused error)) → was.new ≡ was.core }
    ensures seat { (o : Opened) (seat : ℕ) (session : SessionValue) (e : Event) (error : Error)
        (was : WasServedTo o seat session e (Refused error)) → was.new ≡ was.core }
    ensures changed { (txn : ℕ) (change : Write) (error : Error) (refusal : Option Error)
        (old between new : SessionValue) → HasChanged old txn change (Some error) between
        → HasChanged between txn change refusal new → HasChanged old txn change refusal new }
    ensures undone { (o : Opened) (seat txn : ℕ) (old between new : SessionValue) → HasUndone o seat old txn between
        → HasUndone o seat between txn new → HasUndone o seat old txn new }
    ensures aborted { (o : Opened) (seat txn : ℕ) (old between : SessionValue) → HasUndone o seat old txn between
        → (between ≡ old) ⊎ IsGoingBack old txn between → WasAborted o seat between txn → WasAborted o seat old txn }
{
    refused_calls();
}

/// A law: a wait for a ticket has one answer. What the seat had seen before it, and has seen behind it, leaves one
/// acknowledgement (`ack`) or one error (`error`), and not both (`either`).
pub fn one_wait()
    ensures ack { (ticket : Ticket) (before after : SeatValue) (a b : AckValue) → IsAcked ticket before after a
        → IsAcked ticket before after b → a ≡ b }
    ensures error { (ticket : Ticket) (before after : SeatValue) (d e : Error) → IsNotAcked ticket before after d
        → IsNotAcked ticket before after e → d ≡ e }
    ensures either { (ticket : Ticket) (before after : SeatValue) (ack : AckValue) (e : Error)
        → IsAcked ticket before after ack → ¬ IsNotAcked ticket before after e }
{}
