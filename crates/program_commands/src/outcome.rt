//! What came of a request.
ghost use Rattle.std.specs.Prelude.{◌≡◌};
ghost use Rattle.program_commands.specs.Outcomes.{outcome_of};

use program_values::Answer;
use records::Error;

/// What came of a request, as far as who asked may have to act upon it.
#[derive(Clone, Copy)]
pub enum Outcome {
    /// Its answer was a ticket.
    Ticket,
    /// Its last answer was this refusal.
    Refused(Error),
    /// It was refused, since more rows than one have the key.
    Several,
    /// It was skipped.
    Skipped,
    /// Anything else.
    Other,
}

impl Outcome {
    ghost use Rattle.program_commands.specs.Outcomes.{is_refusal};

    /// Whether the request was refused.
    pub fn is_refusal(self) -> bool
        ensures { result ≡ is_refusal self }
    {
        matches!(self, Outcome::Refused(_) | Outcome::Several)
    }
}

/// What came of a request whose last answer this is.
pub(crate) fn outcome_of(answer: &Answer) -> Outcome
    ensures { result ≡ outcome_of answer.now }
{
    match answer {
        Answer::Ticket(_) => Outcome::Ticket,
        Answer::Refused(error) => Outcome::Refused(*error),
        Answer::Several(_) => Outcome::Several,
        Answer::Skipped => Outcome::Skipped,
        _ => Outcome::Other,
    }
}
