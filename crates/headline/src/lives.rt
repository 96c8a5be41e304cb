//! A store is formatted, and lives through days of requests.
ghost use Rattle.std.specs.Prelude.{◌≡◌, ◌⊎◌, ◌<◌, ◌≤◌, ◌↔◌, [], length, true, false, None, IfErr, IfOk, IfSome, OnOk};
ghost use Rattle.record_values.specs.GeometryValue.{GeometryValue, sectors_of};
ghost use Rattle.model.specs.Given.{nothing};
ghost use Rattle.restart.specs.Building.{BuildsWhole, HasCome};
ghost use Rattle.restart.specs.Parts.{core_of};
ghost use Rattle.headline.specs.Held.{HasLived, IsNotBuilt, IsNotReopened, IsUnbuilt};
ghost use Rattle.headline.specs.Kept.{EndsBuild, KeepsDays};
ghost use Rattle.headline.specs.AtRest.{AtRest, resting};

use crate::daily::live_each_day;
use crate::{Day, Mortal};
use flip_image::Halves;
use records::{Error, Geometry};
use restart::{Engine, Reply, nothing_opens, restart};
use std::alloc::Allocator;
use store_reader::{format_gives_nothing, one_answer};

/// The replies of a day, or why nothing was served. Where the day ends within its last request, the reply to that is
/// the last one, and the store stopped before it came.
pub type Answer<A> = Result<Vec<Reply<A>, A>, Error>;

/// What a store answered in its days, and the store as it was opened behind them. Where the build of its index was to
/// be carried to its end and was refused, why.
#[derive(Drop)]
pub struct Lived<D: Mortal, A: Allocator> {
    pub answers: Vec<Answer<A>, A>,
    pub engine: Engine<D, A>,
    pub unbuilt: Option<Error>,
}

/// A store that isn't there behind its days: what was answered in them, why it wasn't opened, and its device.
#[derive(Drop)]
pub struct NotLived<E, D: Mortal, A: Allocator> {
    pub answers: Vec<Answer<A>, A>,
    pub error: E,
    pub device: D,
}

// Carries the build of the index to its end, where that is wanted; or tells why it was refused.
pub(crate) fn finish_build<D: Mortal, A: Allocator + Copy>(
    engine: &mut Engine<D, A>,
    build: bool,
) -> Option<Error>
    ensures kept { build ≡ false → engine.new ≡ engine.old }
    ensures ends { build ≡ true → EndsBuild D.past_of result engine.old engine.new }
    ensures whole { build ≡ true → result ≡ None → BuildsWhole (core_of engine.old) (core_of engine.new) }
    ensures wanted { IfSome result (λ e. build ≡ true) }
    ensures refused { IfSome result (λ e. HasCome (core_of engine.old)
        → IsNotBuilt e (core_of engine.old) (core_of engine.new)) }
{
    if !build {
        return None;
    }
    match engine.build_to_end() {
        Ok(_) => None,
        Err(error) => Some(error),
    }
}

// A store that no day was lived through with.
pub(crate) fn unopened<E, D: Mortal, A: Allocator>(
    alloc: A,
    error: E,
    device: D,
) -> NotLived<E, D, A>
    ensures none { result.answers.items ≡ [] }
    ensures error { result.error ≡ error }
    ensures device { result.device ≡ device }
{
    NotLived {
        answers: Vec::new(alloc),
        error,
        device,
    }
}

// Lives through the days of the store on the device, opens it then, and carries its build on where that is wanted.
pub(crate) fn live_behind<D: Mortal, A: Allocator + Copy>(
    alloc: A,
    device: D,
    days: &[Day<A>],
    build: bool,
) -> Result<Lived<D, A>, NotLived<Error, D, A>>
    ensures holds { IfOk result (λ lived. (g : GeometryValue) (began : AtRest)
        → KeepsDays {M = A} D.past_of D.failures g began [] [] device
        → lived.unbuilt ≡ None → HasLived D.failures g began days.now lived.answers.items build lived.engine) }
    ensures unbuilt { IfOk result (λ lived. (g : GeometryValue) (began : AtRest)
        → KeepsDays {M = A} D.past_of D.failures g began [] [] device
        → IfSome lived.unbuilt (λ e. (build ≡ true)
        × IsUnbuilt D.failures g began days.now lived.answers.items e lived.engine)) }
    ensures refused { IfErr result (λ r. (g : GeometryValue) (began : AtRest)
        → KeepsDays {M = A} D.past_of D.failures g began [] [] device
        → IsNotReopened D.failures g began days.now r.answers.items r.error (D.failures r.device)) }
{
    one_answer();
    let (answers, found) = match live_each_day(alloc, device, days) {
        Ok((answers, found)) => (answers, found),
        Err(refusal) => return Err(refusal),
    };
    let mut engine = match restart(alloc, found) {
        Ok(engine) => engine,
        Err((error, device)) => {
            return Err(NotLived {
                answers,
                error,
                device,
            });
        }
    };
    let unbuilt = finish_build(&mut engine, build);
    Ok(Lived {
        answers,
        engine,
        unbuilt,
    })
}

/// Formats the device, and lives through the days: in each the store is opened, serves the requests in order, and
/// stops. A day that ends `within` stops at any moment of its last request, at any write or sync of the device or
/// between them; or of the opening, where it has none. Another one stops behind its last reply. A day on which the
/// store can't be opened, for want of memory or since the device failed, passes without a request served. In the end
/// the store is opened once more and, where that is wanted, the build of its index is carried to its end.
///
/// What it then holds is told by the days alone (`holds`). On each day that was served the requests were answered
/// lawfully, as an engine may that was opened over what the days before had left. Of the day's commits the first ones
/// were kept, in the order in which they were made, with each that a reply had acknowledged before the store stopped:
/// any reply, but that to the last request of a day that ended within. The next day's record numbers go on behind the
/// last one that was kept. The rows are just those that all commits that were kept have left: of a transaction that had
/// not committed nothing is there, and none is active. Each visible entry of the index is the pair of a row. As far as
/// the index was built, the pair of each row is visible; and once its build was carried to its end, every row's.
///
/// Where the build is refused, `unbuilt` tells why: `NoIndex` where there is none, `IndexFull` where each of its places
/// is taken or reserved, `Exhausted` where no number is left for a record, or `NoMemory`. The rows stay, and steps of
/// the builder alone were made, the last of which was refused so (`unbuilt`).
///
/// A refusal gives the device back, and the answers of the days that there were. `DeviceTooSmall` where it has fewer
/// sectors than a store of this geometry takes, and only there (`too_small`, `room`); then it is as it was
/// (`unchanged`). `DeviceFailed` where its count of failures has risen, in the formatting or in the last opening; and
/// `NoMemory` in the last opening, or for want of memory for the answers, where it hasn't (`refused`).
pub fn live_through<D: Mortal, A: Allocator + Copy>(
    alloc: A,
    mut device: D,
    geometry: Geometry,
    days: &[Day<A>],
    build: bool,
) -> Result<Lived<D, A>, NotLived<Error, D, A>>
    ensures holds { IfOk result (λ lived. lived.unbuilt ≡ None
        → HasLived D.failures geometry (resting nothing (D.failures device)) days.now lived.answers.items build
        lived.engine) }
    ensures unbuilt { IfOk result (λ lived. IfSome lived.unbuilt (λ e. (build ≡ true)
        × IsUnbuilt D.failures geometry (resting nothing (D.failures device)) days.now lived.answers.items e
        lived.engine)) }
    ensures refused { IfErr result (λ r. (r.error ≡ Error.DeviceTooSmall)
        ⊎ IsNotReopened D.failures geometry (resting nothing (D.failures device)) days.now r.answers.items r.error
        (D.failures r.device)) }
    ensures too_small { IfErr result (λ r. (r.error ≡ Error.DeviceTooSmall)
        ↔ (length (D.past_of device).disk.content < sectors_of geometry)) }
    ensures unchanged { IfErr result (λ r. r.error ≡ Error.DeviceTooSmall
        → (r.answers.items ≡ []) × (r.device ≡ device)) }
    ensures room { OnOk result (sectors_of geometry ≤ length (D.past_of device).disk.content) }
{
    format_gives_nothing();
    nothing_opens();
    if let Err(error) = Halves::format(&mut device, geometry) {
        return Err(unopened(alloc, error, device));
    }
    device.stop_now();
    live_behind(alloc, device, days, build)
}
