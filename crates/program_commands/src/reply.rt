//! What is answered for the replies of the engine.
ghost use Rattle.std.specs.Prelude.{◌≡◌};
ghost use Rattle.program_commands.specs.Answers.{answer_of, build_step_of, clean_step_of, row_answer};

use nsf_core::{BuildReply, CleanReply};
use program_values::{Answer, Step};
use records::Row;
use restart::Reply;
use std::alloc::Global;

/// The answer for this reply, where all records up to the horizon are synced.
pub fn answer_of(reply: Reply<Global>, horizon: u64) -> Answer
    ensures { result ≡ answer_of horizon reply }
{
    match reply {
        Reply::Txn(txn) => Answer::Txn(txn),
        Reply::Rid(rid) => Answer::Rid(rid),
        Reply::Stepped | Reply::Ended => Answer::Done,
        Reply::Undone => Answer::Undone,
        Reply::Empty => Answer::Empty,
        Reply::Ticket(ticket) => Answer::Ticket(ticket.record.get()),
        Reply::Built(built) => Answer::Made(build_step_of(built)),
        Reply::Cleaned(cleaned) => Answer::Made(clean_step_of(cleaned)),
        Reply::Horizon(number) => Answer::Horizon(number),
        Reply::LogFull => Answer::Horizon(horizon),
        Reply::Copied | Reply::Again => Answer::Done,
        Reply::Flipped(_) => Answer::Flipped,
        Reply::Row(row) => answer_of_row(row),
        Reply::Found(rids) => Answer::Found(rids),
        Reply::Life(life) => Answer::Life(life),
        Reply::Skipped => Answer::Skipped,
        Reply::Refused(error) => Answer::Refused(error),
    }
}

fn build_step_of(built: BuildReply) -> Step
    ensures { result ≡ build_step_of built }
{
    match built {
        BuildReply::Scanned(page) => Step::Scanned(page),
        BuildReply::Placed(pair) => Step::Placed(pair),
        BuildReply::Rejected(pair) => Step::Rejected(pair),
        BuildReply::Marked(pair, ticket) => Step::Marked(pair, ticket.record.get()),
        BuildReply::Done(ticket) => Step::Completed(ticket.record.get()),
        BuildReply::Idle => Step::Idle,
    }
}

fn clean_step_of(cleaned: CleanReply) -> Step
    ensures { result ≡ clean_step_of cleaned }
{
    match cleaned {
        CleanReply::Cleaned(pair) => Step::Cleaned(pair),
        CleanReply::Kept(pair) => Step::Kept(pair),
        CleanReply::Wrapped => Step::Wrapped,
    }
}

fn answer_of_row(row: Option<Row>) -> Answer
    ensures { result ≡ row_answer row }
{
    match row {
        Some(row) => Answer::Row(row),
        None => Answer::NoRow,
    }
}
