//! A store that lives through days of requests, and then a day of clients.
ghost use Rattle.std.specs.Prelude.{◌≡◌, ◌⊎◌, ◌↔◌, ◌<◌, ◌≤◌, [], ℕ, List, length, true, Err, None, IfErr, IfOk, IfSome};
ghost use Rattle.std.specs.Prelude.{OnOk, vec_len, ◌≢◌};
ghost use Rattle.std.specs.declared.alloc.Global.{Global};
ghost use Rattle.record_values.specs.GeometryValue.{GeometryValue, sectors_of};
ghost use Rattle.record_values.specs.declared.error.Error.TheVariants.{DeviceTooSmall, TooManyTxns};
ghost use Rattle.model.specs.Given.{nothing};
ghost use Rattle.flip_image.specs.Store.{IsDeviceFailure};
ghost use Rattle.nsf.specs.Serving.{IsNotServed};
ghost use Rattle.nsf.specs.OpenErrors.TheVariants.{Refused};
ghost use Rattle.headline.specs.declared.day.Day.{Day};
ghost use Rattle.headline.specs.Days.{Answer};
ghost use Rattle.headline.specs.Held.{HasLived, IsUnbuilt};
ghost use Rattle.headline.specs.Kept.{FindsShared, KeepsDays};
ghost use Rattle.headline.specs.Stops.{StopsAt, mark_read};
ghost use Rattle.headline.specs.AtRest.{AtRest, resting};
ghost use Rattle.headline.specs.Beside.{HasLivedBeside, IsNotLivedBeside};

use crate::daily::live_each_day;
use crate::lives::{Answer, NotLived, finish_build, unopened};
use crate::{Day, End, Mortal, SharedAnswer, SharedDay};
use flip_image::Halves;
use nsf::{Client, OpenError, Served, serve_and_see};
use records::{Error, Geometry, TXNS_MAX};
use restart::{Engine, nothing_opens, restart};
use std::alloc::Global;
use std::sync::Wait;
use std::thread::Threads;
use store_opener::written_back;
use store_reader::{format_gives_nothing, one_answer};

/// What a store answered in its days and on the day of clients behind them, and the store as it was opened behind that.
/// Where the build of its index was to be carried to its end and was refused, why.
#[derive(Drop)]
pub struct LivedBeside<C, D: Mortal> {
    pub answers: Vec<Answer<Global>>,
    pub shared: SharedAnswer<C>,
    pub engine: Engine<D, Global>,
    pub unbuilt: Option<Error>,
}

/// A store that isn't there behind its days and a day of clients: what was answered in them, why it wasn't opened, and
/// its device. `shared` is there where it wasn't opened behind the clients' work.
#[derive(Drop)]
pub struct NotLivedBeside<C, D: Mortal> {
    pub answers: Vec<Answer<Global>>,
    pub shared: Option<SharedAnswer<C>>,
    pub error: OpenError,
    pub device: D,
}

// The mark since which a day stops that ends so: the last one that its client has read; where it has read none, that of
// the opening.
fn read_by(marks: &[u64], end: End, opening: u64) -> u64
    ensures none { mark_read end marks.now ≡ 0 → result ≡ opening }
    ensures read { mark_read end marks.now ≢ 0 → result ≡ mark_read end marks.now }
{
    let End::Since(client) = end else {
        return opening;
    };
    match marks.get(client) {
        Some(mark) if *mark != 0 => *mark,
        _ => opening,
    }
}

// The marks of a day's moments: as its opening began, as clients and loops had ended, and the one that a client read.
#[derive(Clone, Copy)]
struct DayMarks {
    opening: u64,
    closing: u64,
    read: u64,
}

// Stops the device: at one of its moments since the opening began, since clients and loops had ended, or since the one
// that a client read a mark of; or where it is.
fn stop_device<D: Mortal>(device: &mut D, marks: DayMarks, end: End)
    ensures stopped { (first mid read : ℕ) → D.marks marks.opening first → D.marks marks.closing mid
        → D.marks marks.read read → first ≤ mid → mid ≤ (D.past_of device.old).moment → first ≤ read
        → read ≤ (D.past_of device.old).moment
        → StopsAt end first mid read (D.past_of device.old) (D.past_of device.new) }
    ensures failures { D.failures device.new ≡ D.failures device.old }
{
    match end {
        End::Behind => device.stop_now(),
        End::Closing => device.stop(marks.closing),
        End::Since(_) => device.stop(marks.read),
        End::Opening => device.stop(marks.opening),
    }
}

// Lets the clients work over the store on the device, until it stops.
fn serve_clients<C: Client + Send + Drop, D: Mortal + Send, R: Threads + Wait + Sync>(
    rt: &R,
    alloc: Global,
    device: D,
    day: SharedDay<C>,
) -> Result<(SharedAnswer<C>, D), (OpenError, D)>
    ensures served { IfOk result (λ r. (geometry : GeometryValue) (began : AtRest) (days : List (Day Global))
        (answers : List (Answer Global)) → KeepsDays D.past_of D.failures geometry began days answers device
        → ∥ FindsShared C.works D.failures geometry began days answers day r.0 (D.failures r.1)
        (D.past_of r.1).disk.content ∥₁) }
    ensures refused { IfErr result (λ r. IsNotServed D.past_of D.failures device (vec_len day.clients) r.1 r.0) }
{
    one_answer();
    written_back();
    let opening = device.mark();
    let SharedDay { clients, end } = day;
    match serve_and_see(
        rt,
        alloc,
        device,
        clients,
        |device: &D| -> u64
            ensures { D.marks result (D.past_of device.now).moment }
        { device.mark() },
    ) {
        Ok((served, closing)) => {
            let Served {
                clients,
                marks,
                mut device,
                built,
                written,
            } = served;
            let day_marks = DayMarks {
                opening,
                closing,
                read: read_by(&marks, end, opening),
            };
            stop_device(&mut device, day_marks, end);
            let answer = SharedAnswer {
                clients,
                built,
                written,
            };
            Ok((answer, device))
        }
        Err(refused) => Err(refused),
    }
}

// Formats the device as a store that holds nothing, and stops it.
fn format_anew<D: Mortal>(device: &mut D, geometry: Geometry) -> Result<(), Error>
    ensures keeps { OnOk result (KeepsDays {M = Global} D.past_of D.failures geometry
        (resting nothing (D.failures device.old)) [] [] device.new) }
    ensures too_small { (result ≡ Err DeviceTooSmall)
        ↔ (length (D.past_of device.old).disk.content < sectors_of geometry) }
    ensures unchanged { result ≡ Err DeviceTooSmall → device.new ≡ device.old }
    ensures refused { IfErr result (λ e. (e ≡ DeviceTooSmall)
        ⊎ IsDeviceFailure (D.failures device.old) (D.failures device.new) e) }
{
    format_gives_nothing();
    nothing_opens();
    Halves::format(device, geometry)?;
    device.stop_now();
    Ok(())
}

// Lets the clients work over the store on the device behind its days, and opens it then. Carries its build on where
// that is wanted.
fn share_behind<C: Client + Send + Drop, D: Mortal + Send, R: Threads + Wait + Sync>(
    rt: &R,
    alloc: Global,
    answers: Vec<Answer<Global>>,
    device: D,
    day: SharedDay<C>,
    build: bool,
) -> Result<LivedBeside<C, D>, NotLivedBeside<C, D>>
    requires { vec_len day.clients ≤ 16 }
    ensures holds { IfOk result (λ lived. (geometry : GeometryValue) (began : AtRest) (days : List (Day Global))
        → KeepsDays D.past_of D.failures geometry began days answers.items device → lived.unbuilt ≡ None
        → ∥ ((store : AtRest) × HasLivedBeside C.works D.failures geometry began days lived.answers.items day
        lived.shared store × HasLived D.failures geometry store [] [] build lived.engine) ∥₁) }
    ensures unbuilt { IfOk result (λ lived. (geometry : GeometryValue) (began : AtRest) (days : List (Day Global))
        → KeepsDays D.past_of D.failures geometry began days answers.items device → IfSome lived.unbuilt (λ e.
        (build ≡ true) × ∥ ((store : AtRest) × HasLivedBeside C.works D.failures geometry began days
        lived.answers.items day lived.shared store × IsUnbuilt D.failures geometry store [] [] e lived.engine) ∥₁)) }
    ensures refused { IfErr result (λ r. (geometry : GeometryValue) (began : AtRest) (days : List (Day Global))
        → KeepsDays D.past_of D.failures geometry began days answers.items device
        → IsNotLivedBeside C.works D.failures geometry began days r.answers.items day r.shared r.error
        (D.failures r.device)) }
{
    one_answer();
    let (shared, found) = match serve_clients(rt, alloc, device, day) {
        Ok((shared, found)) => (shared, found),
        Err((error, device)) => {
            return Err(NotLivedBeside {
                answers,
                shared: None,
                error,
                device,
            });
        }
    };
    let mut engine = match restart(alloc, found) {
        Ok(engine) => engine,
        Err((error, device)) => {
            return Err(NotLivedBeside {
                answers,
                shared: Some(shared),
                error: OpenError::Refused(error),
                device,
            });
        }
    };
    let unbuilt = finish_build(&mut engine, build);
    Ok(LivedBeside {
        answers,
        shared,
        engine,
        unbuilt,
    })
}

// The clients have not worked.
fn refused_before<C, D: Mortal>(refusal: NotLived<Error, D, Global>) -> NotLivedBeside<C, D>
    ensures answers { result.answers ≡ refusal.answers }
    ensures shared { result.shared ≡ None }
    ensures error { result.error ≡ Refused refusal.error }
    ensures device { result.device ≡ refusal.device }
{
    let NotLived {
        answers,
        error,
        device,
    } = refusal;
    NotLivedBeside {
        answers,
        shared: None,
        error: OpenError::Refused(error),
        device,
    }
}

/// Formats the device, and lives through the days as `live_through` does. Behind them comes a day of clients. The store
/// is opened, and they work, each with a seat of its own; meanwhile others build the index, clean it and write to the
/// device (`serve_and_see`). The store stops then, as the day's `end` says: behind all that was done; or at any moment
/// since clients and loops had ended, since a client had read a mark of the device's clock, or since the opening began,
/// at any write or sync of the device or between them.
/// In the end it is opened once more and, where that is wanted, the build of its index is carried to its end.
///
/// What it then holds is told by the days and the seats alone (`holds`). The rows are those that the days had left.
/// Over them are set the commits of all seats up to the last record that was kept, in the order of their numbers. Of a
/// transaction that had not committed nothing is there, and none is active. Each visible entry of the index is the pair
/// of a row; as far as the index was built, the pair of each row is visible; and once its build was carried to its end,
/// every row's.
///
/// On a day that ends `Behind` or `Closing`, the last record is not below any horizon that a seat has read: nothing is
/// lost that was acknowledged. On one that ends `Since` a client, it is not below the horizon that this client's seat
/// had seen as it read the mark: nothing is lost that this client then knew to be acknowledged, wherever the store
/// stopped later. On one that ends `Opening` no clause says how many records were kept.
///
/// Where the build is refused, `unbuilt` tells why, as that of `live_through` does.
///
/// A refusal gives the device back, and what was answered until then. `TooManyTxns` where there are more than 16
/// clients, and only there (`many`); else `DeviceTooSmall` where the device has fewer sectors than a store of this
/// geometry takes, and only there (`too_small`, `room`): then it is as it was (`unchanged`). `DeviceFailed` comes only
/// where the count of failures has risen, in the formatting or since the days; or `NoMemory` (`refused`).
pub fn live_beside<C: Client + Send + Drop, D: Mortal + Send, R: Threads + Wait + Sync>(
    rt: &R,
    alloc: Global,
    mut device: D,
    geometry: Geometry,
    days: &[Day<Global>],
    day: SharedDay<C>,
    build: bool,
) -> Result<LivedBeside<C, D>, NotLivedBeside<C, D>>
    ensures holds { IfOk result (λ lived. lived.unbuilt ≡ None → ∥ ((store : AtRest)
        × HasLivedBeside C.works D.failures geometry (resting nothing (D.failures device)) days.now
        lived.answers.items day lived.shared store × HasLived D.failures geometry store [] [] build lived.engine) ∥₁) }
    ensures unbuilt { IfOk result (λ lived. IfSome lived.unbuilt (λ e. (build ≡ true) × ∥ ((store : AtRest)
        × HasLivedBeside C.works D.failures geometry (resting nothing (D.failures device)) days.now
        lived.answers.items day lived.shared store × IsUnbuilt D.failures geometry store [] [] e lived.engine) ∥₁)) }
    ensures refused { IfErr result (λ r. (r.error ≡ Refused TooManyTxns) ⊎ (r.error ≡ Refused DeviceTooSmall)
        ⊎ IsNotLivedBeside C.works D.failures geometry (resting nothing (D.failures device)) days.now r.answers.items
        day r.shared r.error (D.failures r.device)) }
    ensures many { IfErr result (λ r. (r.error ≡ Refused TooManyTxns) ↔ (16 < vec_len day.clients)) }
    ensures too_small { IfErr result (λ r. (r.error ≡ Refused DeviceTooSmall) ↔ ((vec_len day.clients ≤ 16)
        × (length (D.past_of device).disk.content < sectors_of geometry))) }
    ensures unchanged { IfErr result (λ r. (r.error ≡ Refused TooManyTxns) ⊎ (r.error ≡ Refused DeviceTooSmall)
        → (r.answers.items ≡ []) × (r.shared ≡ None) × (r.device ≡ device)) }
    ensures room { OnOk result ((vec_len day.clients ≤ 16)
        × (sectors_of geometry ≤ length (D.past_of device).disk.content)) }
{
    if day.clients.len() > TXNS_MAX {
        return Err(refused_before(unopened(alloc, Error::TooManyTxns, device)));
    }
    if let Err(error) = format_anew(&mut device, geometry) {
        return Err(refused_before(unopened(alloc, error, device)));
    }
    match live_each_day(alloc, device, days) {
        Ok((answers, found)) => share_behind(rt, alloc, answers, found, day, build),
        Err(refusal) => Err(refused_before(refusal)),
    }
}
