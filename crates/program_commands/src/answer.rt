//! What is printed for a request.
ghost use Rattle.std.specs.Prelude.{◌≡◌, IfOk, OnErr};
ghost use Rattle.program_commands.specs.Outcomes.{outcome_of};
ghost use Rattle.program_commands.specs.Requested.{Answers, IsServed, MakesSome, MakesSteps, Prints};

use crate::guarded::GuardedStore;
use crate::outcome::{Outcome, outcome_of};
use crate::reply::answer_of;
use crate::request::Request;
use program_values::Answer;
use restart::Event;
use sector_device::Device;
use std::io;
use std::io::Write;

/// Prints an answer, and tells what came of a request whose last answer it is.
pub(crate) fn print<W: Write>(output: &mut W, answer: &Answer) -> io::Result<Outcome>
    ensures { IfOk result (λ outcome.
        Prints W.contents answer.now output.old output.new × (outcome ≡ outcome_of answer.now)) }
{
    writeln!(output, "{answer}")?;
    Ok(outcome_of(answer))
}

impl<D: Device> GuardedStore<D> {
    ghost use Rattle.program_commands.specs.Requested.{Answers, IsServed, MakesSome, MakesSteps};

    // Makes up to so many steps of the builder or the cleaner, and prints each answer.
    fn make_steps<W: Write>(
        &mut self,
        event: &Event,
        count: u32,
        output: &mut W,
    ) -> io::Result<Outcome>
        ensures ok { IfOk result (λ outcome. MakesSteps D.past_of D.failures W.contents event.now count outcome
            self.old self.new output.old output.new) }
        ensures err { OnErr result (MakesSome D.past_of D.failures event.now count self.old self.new) }
    {
        for _ in 0..count {
            let reply = self.serve(*event);
            let answer = answer_of(reply, self.store().horizon());
            let outcome = print(output, &answer)?;
            if answer.is_last_step() {
                return Ok(outcome);
            }
        }
        Ok(Outcome::Other)
    }

    /// Serves a request, prints its answers, and tells what came of it. A crash is none that a device itself can make:
    /// it is answered `skipped`.
    ///
    /// The error is the output's, and then the request was served in part or whole (`err`).
    pub fn answer<W: Write>(&mut self, request: Request, output: &mut W) -> io::Result<Outcome>
        ensures ok { IfOk result (λ outcome. Answers D.past_of D.failures W.contents request outcome
            self.old self.new output.old output.new) }
        ensures err { OnErr result (IsServed D.past_of D.failures request self.old self.new) }
    {
        match request {
            Request::Event(event) => {
                let reply = self.serve(event);
                print(output, &answer_of(reply, self.store().horizon()))
            }
            Request::Build(count) => self.make_steps(&Event::Build, count, output),
            Request::Clean(count) => self.make_steps(&Event::Clean, count, output),
            Request::Flush => {
                let reply = self.flush();
                print(output, &answer_of(reply, self.store().horizon()))
            }
            Request::Image => {
                let reply = self.take_image();
                print(output, &answer_of(reply, self.store().horizon()))
            }
            Request::Crash(_) => print(output, &Answer::Skipped),
            Request::Dump => {
                self.store().dump(output)?;
                Ok(Outcome::Other)
            }
        }
    }
}
