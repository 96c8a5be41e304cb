//! What the steps of a build tell who builds an index to its end.
ghost use Rattle.std.specs.Prelude.{◌≡◌, ◌≤◌, IfSome, IsSome, None};
ghost use Rattle.record_values.specs.declared.number.TheConstants.{LAST_NUMBER};
ghost use Rattle.restart.specs.Building.{end_of, in_a_row};

use nsf_core::{BuildReply, Ticket};
use records::RecordNumber;

// A ticket of the record of this number, if a record may have it; it is no commit's.
pub(crate) fn ticket_of(number: u64) -> Option<Ticket>
    ensures ticket { IfSome result (λ ticket. (ticket.«record» ≡ number) × (ticket.commit ≡ None)) }
    ensures some { 1 ≤ number → number ≤ LAST_NUMBER → IsSome result }
{
    let record = RecordNumber::new(number)?;
    Some(Ticket {
        record,
        commit: None,
    })
}

// The ticket of the build's end, where the reply tells of it.
pub(crate) fn end_of(reply: &BuildReply) -> Option<Ticket>
    ensures { result ≡ end_of reply.now }
{
    match reply {
        BuildReply::Scanned(_) => None,
        BuildReply::Placed(_) => None,
        BuildReply::Rejected(_) => None,
        BuildReply::Marked(_, _) => None,
        BuildReply::Done(ticket) => Some(*ticket),
        BuildReply::Idle => None,
    }
}

// How many pages the builder has taken in a row after this step, where it had taken so many before.
pub(crate) fn in_a_row(scanned: u64, reply: &BuildReply) -> u64
    ensures { result ≡ in_a_row scanned reply.now }
{
    match reply {
        BuildReply::Scanned(page) => u64::from(*page) + 1,
        BuildReply::Placed(_) | BuildReply::Rejected(_) => 0,
        BuildReply::Marked(..) | BuildReply::Done(_) | BuildReply::Idle => scanned,
    }
}
