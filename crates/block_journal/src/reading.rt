// The areas of a journal are read, and the blocks before the last batch are replayed.
ghost use Rattle.std.specs.Prelude.{◌≡◌, ◌⊎◌, ◌+◌, ◌%◌, ◌^◌, ◌≤◌, ◌<◌, ℕ, List, Option, None, Some, length, map, Vec};
ghost use Rattle.std.specs.Prelude.{[], IfOk, IfSome, OnErr, OnOk, MatchOption, true, false};
ghost use Rattle.sector_device.specs.DevicePast.{CountsFailure};
ghost use Rattle.block_device.specs.Blocks.{CrashFile, IsSynced, SameOutside};
ghost use Rattle.block_device.specs.BlocksPast.{BlocksPast, RunsWithin, and_back};
ghost use Rattle.block_batch.specs.Batch.{Entry, IsPlace, batch_in, replayed};
ghost use Rattle.block_journal.specs.Layout.{IsInside, area_of, area_start, found, kept_of, kept_start};
ghost use Rattle.block_journal.specs.Journal.{BeginsBack, InRunOrKept, OnlyReads, areas_back};
ghost use Rattle.block_journal.specs.Gathered.{batches_of, entries_of, IsBuffer};
ghost use Rattle.block_journal.specs.Opening.{HasTaken, HasTakenBoth, first_entries, found_batches};

use crate::Shape;
use crate::gathered::Gathered;
use crate::writing::write_places;
use block_device::{BLOCK_SIZE, Blocks};
use ghost_list::GhostList;
use sector_device::Failed;
use std::alloc::Allocator;
use std::mem;

/// Which batch is the last one: its number, that of the other one, and whether it is in the second area.
#[derive(Clone, Copy)]
pub(crate) struct Order {
    number: u64,
    before: Option<u64>,
    is_second: bool,
}

impl Order {
    ghost use Rattle.block_journal.specs.Opening.{IsOrder};

    // By the numbers of the batches of the two areas: the highest one is the last.
    fn of(first: Option<u64>, second: Option<u64>) -> Option<Order>
        ensures { MatchOption result ((first ≡ None) × (second ≡ None)) (IsOrder first second) }
    {
        match (first, second) {
            (None, None) => None,
            (None, Some(number)) => Some(Order::second(number, None)),
            (Some(number), None) => Some(Order::first(number, None)),
            (Some(x), Some(y)) if x < y => Some(Order::second(y, first)),
            (Some(number), Some(_)) => Some(Order::first(number, second)),
        }
    }

    fn first(number: u64, before: Option<u64>) -> Order
        ensures { result ≡ record { number = number; before = before; is_second = false } }
    {
        Order {
            number,
            before,
            is_second: false,
        }
    }

    fn second(number: u64, before: Option<u64>) -> Order
        ensures { result ≡ record { number = number; before = before; is_second = true } }
    {
        Order {
            number,
            before,
            is_second: true,
        }
    }

    // Puts the buffer with the last batch first.
    fn arrange<A: Allocator>(self, last: &mut Gathered<A>, other: &mut Gathered<A>)
        ensures second { self.is_second ≡ true → (last.new ≡ other.old) × (other.new ≡ last.old) }
        ensures first { self.is_second ≡ false → (last.new ≡ last.old) × (other.new ≡ other.old) }
    {
        if self.is_second {
            mem::swap(last, other);
        }
    }
}

// Reads an area into an empty buffer. The number of its batch, if it has one.
fn read_area<B: Blocks, A: Allocator + Copy>(
    below: &mut B,
    shape: Shape,
    a: u64,
    buffer: &mut Gathered<A>,
) -> Result<Option<u64>, Failed>
    requires inside { IsInside shape (B.past_of below.old).file.content }
    requires small { kept_start shape + shape.kept < 2 ^ 64 }
    requires low { a < 2 }
    requires buffer { IsBuffer buffer.old }
    requires size { length buffer.old.area.items ≡ shape.area }
    requires none { buffer.old.count ≡ 0 }
    ensures taken { IfOk result (HasTaken (found shape (B.past_of below.old).file.content a) a buffer.new) }
    ensures buffer { IsBuffer buffer.new }
    ensures size { length buffer.new.area.items ≡ shape.area }
    ensures reads { OnlyReads (B.past_of below.old) (B.past_of below.new) }
    ensures back { B.written_back below.new ≡ B.written_back below.old }
    ensures counts { CountsFailure (B.failures below.old) (B.failures below.new) result }
{
    let start = shape.first + a * shape.area;
    below.read(start, &mut buffer.area)?;
    Ok(buffer.load(a))
}

// Reads both areas into empty buffers: the last batch into the one, and what comes before it into the other. Their
// numbers, or nothing where neither area has a batch.
fn read_areas<B: Blocks, A: Allocator + Copy>(
    below: &mut B,
    shape: Shape,
    last: &mut Gathered<A>,
    other: &mut Gathered<A>,
) -> Result<Option<(u64, Option<u64>)>, Failed>
    requires inside { IsInside shape (B.past_of below.old).file.content }
    requires small { kept_start shape + shape.kept < 2 ^ 64 }
    requires last { IsBuffer last.old }
    requires last_size { length last.old.area.items ≡ shape.area }
    requires last_none { last.old.count ≡ 0 }
    requires other { IsBuffer other.old }
    requires other_size { length other.old.area.items ≡ shape.area }
    requires other_none { other.old.count ≡ 0 }
    ensures taken { IfOk result (λ found. IfSome found (λ numbers. HasTakenBoth shape
        (B.past_of below.old).file.content numbers.0 numbers.1 last.new other.new)) }
    ensures none { IfOk result (λ numbers. numbers ≡ None → (found shape (B.past_of below.old).file.content 0 ≡ None)
        × (found shape (B.past_of below.old).file.content 1 ≡ None)) }
    ensures last { IsBuffer last.new }
    ensures last_size { length last.new.area.items ≡ shape.area }
    ensures other { IsBuffer other.new }
    ensures other_size { length other.new.area.items ≡ shape.area }
    ensures reads { OnlyReads (B.past_of below.old) (B.past_of below.new) }
    ensures back { B.written_back below.new ≡ B.written_back below.old }
    ensures counts { CountsFailure (B.failures below.old) (B.failures below.new) result }
{
    let first = read_area(below, shape, 0, last)?;
    let second = read_area(below, shape, 1, other)?;
    match Order::of(first, second) {
        None => Ok(None),
        Some(order) => {
            order.arrange(last, other);
            Ok(Some((order.number, order.before)))
        }
    }
}

// Writes an area back as it is, and syncs it.
fn keep_area<B: Blocks>(below: &mut B, shape: Shape, a: u64) -> Result<(), Failed>
    requires inside { IsInside shape (B.past_of below.old).file.content }
    requires small { kept_start shape + shape.kept < 2 ^ 64 }
    requires low { a < 2 }
    ensures past { B.past_of below.new ≡ B.past_of below.old }
    ensures back { OnOk result (B.written_back below.new ≡ and_back (B.written_back below.old) (area_start shape a)
        shape.area (B.past_of below.old).moment) }
    ensures back_err { OnErr result (B.written_back below.new ≡ B.written_back below.old) }
    ensures counts { CountsFailure (B.failures below.old) (B.failures below.new) result }
{
    let start = shape.first + a * shape.area;
    below.keep(start, shape.area)
}

// Writes both areas back as they are, that of the batch of this number behind the other one: so one of them is always
// whole.
fn keep_areas<B: Blocks>(below: &mut B, shape: Shape, number: u64) -> Result<(), Failed>
    requires inside { IsInside shape (B.past_of below.old).file.content }
    requires small { kept_start shape + shape.kept < 2 ^ 64 }
    ensures past { B.past_of below.new ≡ B.past_of below.old }
    ensures back { OnOk result (B.written_back below.new
        ≡ areas_back shape number (B.past_of below.old).moment (B.written_back below.old)) }
    ensures back_err { OnErr result ((B.written_back below.new ≡ B.written_back below.old)
        ⊎ (B.written_back below.new ≡ and_back (B.written_back below.old) (area_start shape ((number + 1) % 2))
        shape.area (B.past_of below.old).moment)) }
    ensures counts { CountsFailure (B.failures below.old) (B.failures below.new) result }
{
    let last = number % 2;
    keep_area(below, shape, 1 - last)?;
    keep_area(below, shape, last)
}

/// Reads both areas as [`read_areas`] does. Where one has a batch, what was read is written back, and synced, the area
/// of the last batch behind the other one (`back`): a sync of an earlier process that failed may have left it in the
/// memory of the system alone.
pub(crate) fn take_areas<B: Blocks, A: Allocator + Copy>(
    below: &mut B,
    shape: Shape,
    last: &mut Gathered<A>,
    other: &mut Gathered<A>,
) -> Result<Option<(u64, Option<u64>)>, Failed>
    requires inside { IsInside shape (B.past_of below.old).file.content }
    requires small { kept_start shape + shape.kept < 2 ^ 64 }
    requires last { IsBuffer last.old }
    requires last_size { length last.old.area.items ≡ shape.area }
    requires last_none { last.old.count ≡ 0 }
    requires other { IsBuffer other.old }
    requires other_size { length other.old.area.items ≡ shape.area }
    requires other_none { other.old.count ≡ 0 }
    ensures taken { IfOk result (λ found. IfSome found (λ numbers. HasTakenBoth shape
        (B.past_of below.old).file.content numbers.0 numbers.1 last.new other.new)) }
    ensures none { IfOk result (λ numbers. numbers ≡ None → (found shape (B.past_of below.old).file.content 0 ≡ None)
        × (found shape (B.past_of below.old).file.content 1 ≡ None)) }
    ensures last { IsBuffer last.new }
    ensures last_size { length last.new.area.items ≡ shape.area }
    ensures other { IsBuffer other.new }
    ensures other_size { length other.new.area.items ≡ shape.area }
    ensures reads { OnlyReads (B.past_of below.old) (B.past_of below.new) }
    ensures back { IfOk result (λ found. IfSome found (λ numbers. B.written_back below.new
        ≡ areas_back shape numbers.0 (B.past_of below.new).moment (B.written_back below.old))) }
    ensures back_none { IfOk result (λ numbers. numbers ≡ None
        → B.written_back below.new ≡ B.written_back below.old) }
    ensures back_err { OnErr result (BeginsBack shape (B.past_of below.old) (B.past_of below.new)
        (B.written_back below.old) (B.written_back below.new)) }
    ensures counts { CountsFailure (B.failures below.old) (B.failures below.new) result }
{
    let found = read_areas(below, shape, last, other)?;
    match found {
        None => Ok(None),
        Some(numbers) => {
            keep_areas(below, shape, numbers.0)?;
            Ok(Some(numbers))
        }
    }
}

/// The batches of two buffers, for what is offered: the last one, and what comes before it.
pub(crate) fn areas_of<A: Allocator + Copy>(
    last: &Gathered<A>,
    before: Option<u64>,
    other: &Gathered<A>,
) -> GhostList<Vec<[u8; BLOCK_SIZE], A>>
    ensures { (number : ℕ) → batch_in last.now.area.items ≡ record { number = number; entries = entries_of last.now }
        → IfSome before (λ n. batch_in other.now.area.items ≡ record { number = n; entries = entries_of other.now })
        → batches_of result.items ≡ found_batches (record { number = number; entries = entries_of last.now }) before
        (entries_of other.now) }
{
    let one = GhostList::new().and(&last.area);
    match before {
        None => one,
        Some(_) => one.and(&other.area),
    }
}

// Whether a batch of this number, if there is one, is the one before.
fn follows(before: Option<u64>, number: u64) -> bool
    requires { IfSome before (λ n. n < number) }
    ensures first { result ≡ true → (entries : List Entry) → first_entries number before entries ≡ entries }
    ensures none { result ≡ false → (entries : List Entry) → first_entries number before entries ≡ [] }
{
    match before {
        Some(n) => n + 1 == number,
        None => false,
    }
}

// Puts the blocks before the last batch in their places, but for its own, where its number follows theirs.
fn replay_before<B: Blocks, A: Allocator + Copy>(
    below: &mut B,
    shape: Shape,
    number: u64,
    before: Option<u64>,
    other: &Gathered<A>,
    last: &Gathered<A>,
) -> Result<(), Failed>
    requires inside { IsInside shape (B.past_of below.old).file.content }
    requires small { kept_start shape + shape.kept < 2 ^ 64 }
    requires other { IsBuffer other.now }
    requires last { IsBuffer last.now }
    requires low { IfSome before (λ n. n < number) }
    ensures within { (all : List Entry) (image : CrashFile) (start : BlocksPast)
        → ((place : ℕ) → IsPlace (first_entries number before (entries_of other.now)) place → IsPlace all place)
        → RunsWithin (InRunOrKept shape 0 0 all) image start (B.past_of below.old)
        → RunsWithin (InRunOrKept shape 0 0 all) image start (B.past_of below.new) }
    ensures areas { (a : ℕ) → a < 2 → area_of shape (B.past_of below.new).file.content a
        ≡ area_of shape (B.past_of below.old).file.content a }
    ensures size { length (B.past_of below.new).file.content ≡ length (B.past_of below.old).file.content }
    ensures placed { OnOk result (SameOutside (IsPlace (entries_of last.now))
        (replayed (first_entries number before (entries_of other.now))
        (kept_of shape (B.past_of below.old).file.content)) (kept_of shape (B.past_of below.new).file.content)) }
    ensures back { B.written_back below.new ≡ B.written_back below.old }
    ensures counts { CountsFailure (B.failures below.old) (B.failures below.new) result }
{
    if follows(before, number) {
        write_places(below, shape, other, last)
    } else {
        Ok(())
    }
}

/// Puts the blocks before the last batch in their places, but for its own, where its number follows theirs, and syncs.
pub(crate) fn replay<B: Blocks, A: Allocator + Copy>(
    below: &mut B,
    shape: Shape,
    number: u64,
    before: Option<u64>,
    other: &Gathered<A>,
    last: &Gathered<A>,
) -> Result<(), Failed>
    requires inside { IsInside shape (B.past_of below.old).file.content }
    requires small { kept_start shape + shape.kept < 2 ^ 64 }
    requires other { IsBuffer other.now }
    requires last { IsBuffer last.now }
    requires low { IfSome before (λ n. n < number) }
    ensures within { (all : List Entry) (image : CrashFile) (start : BlocksPast)
        → ((place : ℕ) → IsPlace (first_entries number before (entries_of other.now)) place → IsPlace all place)
        → RunsWithin (InRunOrKept shape 0 0 all) image start (B.past_of below.old)
        → RunsWithin (InRunOrKept shape 0 0 all) image start (B.past_of below.new) }
    ensures areas { (a : ℕ) → a < 2 → area_of shape (B.past_of below.new).file.content a
        ≡ area_of shape (B.past_of below.old).file.content a }
    ensures size { length (B.past_of below.new).file.content ≡ length (B.past_of below.old).file.content }
    ensures placed { OnOk result (SameOutside (IsPlace (entries_of last.now))
        (replayed (first_entries number before (entries_of other.now))
        (kept_of shape (B.past_of below.old).file.content)) (kept_of shape (B.past_of below.new).file.content)) }
    ensures synced { OnOk result (IsSynced (B.past_of below.new).file) }
    ensures back { B.written_back below.new ≡ B.written_back below.old }
    ensures counts { CountsFailure (B.failures below.old) (B.failures below.new) result }
{
    replay_before(below, shape, number, before, other, last)?;
    below.sync()
}
