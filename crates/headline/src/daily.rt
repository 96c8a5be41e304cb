//! One day after another.
ghost use Rattle.std.specs.Prelude.{◌≡◌, [], IfErr, IfOk, OnErr};
ghost use Rattle.record_values.specs.GeometryValue.{GeometryValue};
ghost use Rattle.headline.specs.Kept.{IsBegun, IsServedWithin, KeepsDays, KeepsOneMore, ServesWithin};
ghost use Rattle.headline.specs.AtRest.{AtRest};

use crate::lives::{Answer, NotLived, unopened};
use crate::{Day, Mortal};
use core_model::service::all_replies;
use records::Error;
use restart::{Engine, Event, Reply, restart};
use std::alloc::Allocator;
use store_opener::written_back;
use store_reader::one_answer;

// Serves requests, and then a last one. The mark is of the moment in between.
fn serve_with_last<D: Mortal, A: Allocator + Copy>(
    alloc: A,
    engine: &mut Engine<D, A>,
    events: &[Event],
    last: Event,
) -> Result<(Vec<Reply<A>, A>, u64), Error>
    ensures served { IfOk result (λ r. ServesWithin D.past_of D.failures D.marks events.now last r.0.items r.1
        engine.old engine.new) }
    ensures refused { OnErr result (engine.new ≡ engine.old) }
    ensures no_memory { IfErr result (λ e. e ≡ Error.NoMemory) }
{
    let mut replies = Vec::with_capacity(alloc, events.len() + 1)?;
    let mut first = engine.run(events)?;
    let since = engine.device().mark();
    let reply = engine.serve(last);
    let Ok(()) = replies.append(&mut first) else {
        unreachable!()
    };
    replies.push_reserved(reply);
    Ok((replies, since))
}

// Serves the requests of a day that ends within. The store may stop at any moment since the mark: since its last
// request began; or since the opening did, where no request was served.
fn serve_within<D: Mortal, A: Allocator + Copy>(
    alloc: A,
    engine: &mut Engine<D, A>,
    requests: &[Event],
    opening: u64,
) -> (Answer<A>, u64)
    ensures { IsServedWithin D.past_of D.failures D.marks opening requests.now result.0 result.1 engine.old engine.new }
{
    match requests.split_last() {
        None => (Ok(Vec::new(alloc)), opening),
        Some((last, events)) => match serve_with_last(alloc, engine, events, *last) {
            Ok((replies, since)) => (Ok(replies), since),
            Err(error) => (Err(error), opening),
        },
    }
}

// Serves the day's requests over a store that was opened, until it stops.
fn serve_day<D: Mortal, A: Allocator + Copy>(
    alloc: A,
    mut engine: Engine<D, A>,
    day: &Day<A>,
    opening: u64,
) -> (Answer<A>, D)
    ensures { (before : D) → IsBegun D.past_of D.failures before engine → D.marks opening (D.past_of before).moment
        → KeepsOneMore D.past_of D.failures before day.now result.0 result.1 }
{
    one_answer();
    written_back();
    all_replies();
    let within = day.within;
    if within {
        let (answer, since) = serve_within(alloc, &mut engine, &day.requests, opening);
        let mut device = engine.into_device();
        device.stop(since);
        (answer, device)
    } else {
        let answer = engine.run(&day.requests);
        let mut device = engine.into_device();
        device.stop_now();
        (answer, device)
    }
}

// Opens the store on the device and serves the day's requests, until it stops. Where it can't be opened it stops at any
// moment of that.
fn live_one_day<D: Mortal, A: Allocator + Copy>(alloc: A, device: D, day: &Day<A>) -> (Answer<A>, D)
    ensures { KeepsOneMore D.past_of D.failures device day.now result.0 result.1 }
{
    one_answer();
    written_back();
    let opening = device.mark();
    match restart(alloc, device) {
        Ok(engine) => serve_day(alloc, engine, day, opening),
        Err((error, mut device)) => {
            device.stop(opening);
            (Err(error), device)
        }
    }
}

// Lives through the days, one after another.
pub(crate) fn live_each_day<D: Mortal, A: Allocator + Copy>(
    alloc: A,
    mut device: D,
    days: &[Day<A>],
) -> Result<(Vec<Answer<A>, A>, D), NotLived<Error, D, A>>
    ensures days { IfOk result (λ r. (g : GeometryValue) (began : AtRest)
        → KeepsDays {M = A} D.past_of D.failures g began [] [] device
        → KeepsDays D.past_of D.failures g began days.now r.0.items r.1) }
    ensures no_memory { IfErr result (λ r. r.error ≡ Error.NoMemory) }
    ensures none { IfErr result (λ r. r.answers.items ≡ []) }
    ensures unchanged { IfErr result (λ r. r.device ≡ device) }
{
    let Ok(mut answers) = Vec::with_capacity(alloc, days.len()) else {
        return Err(unopened(alloc, Error::NoMemory, device));
    };
    for day in days {
        let (answer, found) = live_one_day(alloc, device, day);
        device = found;
        answers.push_reserved(answer);
    }
    Ok((answers, device))
}
