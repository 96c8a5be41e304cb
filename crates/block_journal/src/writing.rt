// A batch is written, and the blocks of the one before it.
ghost use Rattle.std.specs.Prelude.{◌≡◌, ◌⊎◌, ◌+◌, ◌*◌, ◌^◌, ◌%◌, ◌≤◌, ◌<◌, ℕ, List, length, slice_index, true, false};
ghost use Rattle.std.specs.Prelude.{IfOk, OnOk};
ghost use Rattle.sector_device.specs.DevicePast.{CountsFailure};
ghost use Rattle.block_device.specs.Blocks.{CrashFile, IsSynced, SameOutside, block, run_of, with_run};
ghost use Rattle.block_device.specs.BlocksPast.{BlocksPast, RunsWithin};
ghost use Rattle.block_batch.specs.Batch.{Entry, IsPlace, replayed};
ghost use Rattle.block_journal.specs.Layout.{IsInside, area_of, kept_of, kept_start};
ghost use Rattle.block_journal.specs.Journal.{InRunOrKept, IsWritten, MayWrite};
ghost use Rattle.block_journal.specs.Entries.{entries_in};
ghost use Rattle.block_journal.specs.Gathered.{entries_of, IsBuffer, IsSealed};

use crate::Shape;
use crate::gathered::Gathered;
use block_device::Blocks;
use sector_device::Failed;
use std::alloc::Allocator;

// Writes a sealed batch to its area.
fn write_area<B: Blocks, A: Allocator + Copy>(
    below: &mut B,
    shape: Shape,
    number: u64,
    next: &Gathered<A>,
) -> Result<(), Failed>
    requires inside { IsInside shape (B.past_of below.old).file.content }
    requires small { kept_start shape + shape.kept < 2 ^ 64 }
    requires buffer { IsBuffer next.now }
    requires size { length next.now.area.items ≡ shape.area }
    ensures within { (entries : List Entry) (image : CrashFile) (start : BlocksPast)
        → RunsWithin (MayWrite shape (number % 2) entries) image start (B.past_of below.old)
        → RunsWithin (MayWrite shape (number % 2) entries) image start (B.past_of below.new) }
    ensures written { OnOk result ((n : ℕ) → n ≤ next.now.count
        → block (area_of shape (B.past_of below.new).file.content (number % 2)) n ≡ block next.now.area.items n) }
    ensures kept { kept_of shape (B.past_of below.new).file.content
        ≡ kept_of shape (B.past_of below.old).file.content }
    ensures size { length (B.past_of below.new).file.content ≡ length (B.past_of below.old).file.content }
    ensures back { B.written_back below.new ≡ B.written_back below.old }
    ensures counts { CountsFailure (B.failures below.old) (B.failures below.new) result }
{
    let start = shape.first + (number % 2) * shape.area;
    let run = &next.area[..next.count + 1];
    below.write(start, run)
}

// Whether a place is to be written: that of a kept block, which the next batch doesn't have.
fn is_due<A: Allocator + Copy>(shape: Shape, place: u64, next: &Gathered<A>) -> bool
    requires { IsBuffer next.now }
    ensures due { result ≡ true → place < shape.kept }
    ensures passed { result ≡ false → (shape.kept ≤ place) ⊎ IsPlace (entries_of next.now) place }
{
    match next.find(place) {
        Some(_) => false,
        None => place < shape.kept,
    }
}

// Whether a place is the one that stands so far behind the first, and is to be written.
fn goes_on<A: Allocator + Copy>(
    shape: Shape,
    first: u64,
    behind: u64,
    place: u64,
    next: &Gathered<A>,
) -> bool
    requires { IsBuffer next.now }
    ensures here { result ≡ true → place ≡ first + behind }
    ensures kept { result ≡ true → place < shape.kept }
    ensures passed { result ≡ false → place ≡ first + behind
        → (shape.kept ≤ place) ⊎ IsPlace (entries_of next.now) place }
{
    if place < first || place - first != behind {
        return false;
    }
    is_due(shape, place, next)
}

// How many blocks of a batch, from the i-th on, are to be written in places one behind the other.
fn run_from<A: Allocator + Copy>(
    shape: Shape,
    last: &Gathered<A>,
    next: &Gathered<A>,
    i: usize,
) -> usize
    requires last { IsBuffer last.now }
    requires next { IsBuffer next.now }
    requires low { i < last.now.count }
    ensures low { i + result ≤ last.now.count }
    ensures run { (k : ℕ) → k < result
        → slice_index last.now.places (i + k) ≡ slice_index last.now.places i + k }
    ensures kept { 0 < result → slice_index last.now.places i + result ≤ shape.kept }
    ensures passed { result ≡ 0 → (shape.kept ≤ slice_index last.now.places i)
        ⊎ IsPlace (entries_of next.now) (slice_index last.now.places i) }
{
    let first = last.places[i];
    for k in i..last.count {
        let behind = k - i;
        if !goes_on(shape, first, behind as u64, last.places[k], next) {
            return behind;
        }
    }
    last.count - i
}

// Writes so many kept blocks, from the i-th of a batch on, which have places one behind the other.
fn write_run<B: Blocks, A: Allocator + Copy>(
    below: &mut B,
    shape: Shape,
    last: &Gathered<A>,
    i: usize,
    count: usize,
) -> Result<(), Failed>
    requires inside { IsInside shape (B.past_of below.old).file.content }
    requires small { kept_start shape + shape.kept < 2 ^ 64 }
    requires last { IsBuffer last.now }
    requires some { 0 < count }
    requires low { i + count ≤ last.now.count }
    requires kept { slice_index last.now.places i + count ≤ shape.kept }
    ensures within { (first long : ℕ) (all : List Entry) (image : CrashFile) (start : BlocksPast)
        → ((k : ℕ) → k < count → IsPlace all (slice_index last.now.places i + k))
        → RunsWithin (InRunOrKept shape first long all) image start (B.past_of below.old)
        → RunsWithin (InRunOrKept shape first long all) image start (B.past_of below.new) }
    ensures areas { (a : ℕ) → a < 2 → area_of shape (B.past_of below.new).file.content a
        ≡ area_of shape (B.past_of below.old).file.content a }
    ensures placed { OnOk result (kept_of shape (B.past_of below.new).file.content
        ≡ with_run (kept_of shape (B.past_of below.old).file.content) (slice_index last.now.places i)
        (run_of last.now.area.items (1 + i) count)) }
    ensures size { length (B.past_of below.new).file.content ≡ length (B.past_of below.old).file.content }
    ensures back { B.written_back below.new ≡ B.written_back below.old }
    ensures counts { CountsFailure (B.failures below.old) (B.failures below.new) result }
{
    let kept = shape.first + 2 * shape.area;
    let run = &last.area[1 + i..1 + i + count];
    below.write(kept + last.places[i], run)
}

// Puts blocks of a batch in their places, from the i-th on, but for those that the next one has: a run of them in one
// call. How many of them are dealt with, which is none where there is no i-th.
fn write_next<B: Blocks, A: Allocator + Copy>(
    below: &mut B,
    shape: Shape,
    last: &Gathered<A>,
    next: &Gathered<A>,
    i: usize,
) -> Result<usize, Failed>
    requires inside { IsInside shape (B.past_of below.old).file.content }
    requires small { kept_start shape + shape.kept < 2 ^ 64 }
    requires last { IsBuffer last.now }
    requires next { IsBuffer next.now }
    requires low { i ≤ last.now.count }
    ensures within { (first count : ℕ) (all : List Entry) (image : CrashFile) (start : BlocksPast)
        → ((place : ℕ) → IsPlace (entries_of last.now) place → IsPlace all place)
        → RunsWithin (InRunOrKept shape first count all) image start (B.past_of below.old)
        → RunsWithin (InRunOrKept shape first count all) image start (B.past_of below.new) }
    ensures areas { (a : ℕ) → a < 2 → area_of shape (B.past_of below.new).file.content a
        ≡ area_of shape (B.past_of below.old).file.content a }
    ensures low { IfOk result (λ n. i + n ≤ last.now.count) }
    ensures some { IfOk result (λ n. i < last.now.count → 0 < n) }
    ensures placed { IfOk result (λ n. (start : CrashFile) → SameOutside (IsPlace (entries_of next.now))
        (replayed (entries_in last.now.area.items last.now.places i) start)
        (kept_of shape (B.past_of below.old).file.content)
        → SameOutside (IsPlace (entries_of next.now))
        (replayed (entries_in last.now.area.items last.now.places (i + n)) start)
        (kept_of shape (B.past_of below.new).file.content)) }
    ensures size { length (B.past_of below.new).file.content ≡ length (B.past_of below.old).file.content }
    ensures back { B.written_back below.new ≡ B.written_back below.old }
    ensures counts { CountsFailure (B.failures below.old) (B.failures below.new) result }
{
    if i == last.count {
        return Ok(0);
    }
    let count = run_from(shape, last, next, i);
    if count == 0 {
        return Ok(1);
    }
    write_run(below, shape, last, i, count)?;
    Ok(count)
}

/// Puts the blocks of a batch in their places, but for those that the next one has.
pub(crate) fn write_places<B: Blocks, A: Allocator + Copy>(
    below: &mut B,
    shape: Shape,
    last: &Gathered<A>,
    next: &Gathered<A>,
) -> Result<(), Failed>
    requires inside { IsInside shape (B.past_of below.old).file.content }
    requires small { kept_start shape + shape.kept < 2 ^ 64 }
    requires last { IsBuffer last.now }
    requires next { IsBuffer next.now }
    ensures within { (first count : ℕ) (all : List Entry) (image : CrashFile) (start : BlocksPast)
        → ((place : ℕ) → IsPlace (entries_of last.now) place → IsPlace all place)
        → RunsWithin (InRunOrKept shape first count all) image start (B.past_of below.old)
        → RunsWithin (InRunOrKept shape first count all) image start (B.past_of below.new) }
    ensures areas { (a : ℕ) → a < 2 → area_of shape (B.past_of below.new).file.content a
        ≡ area_of shape (B.past_of below.old).file.content a }
    ensures placed { OnOk result (SameOutside (IsPlace (entries_of next.now))
        (replayed (entries_of last.now) (kept_of shape (B.past_of below.old).file.content))
        (kept_of shape (B.past_of below.new).file.content)) }
    ensures size { length (B.past_of below.new).file.content ≡ length (B.past_of below.old).file.content }
    ensures back { B.written_back below.new ≡ B.written_back below.old }
    ensures counts { CountsFailure (B.failures below.old) (B.failures below.new) result }
{
    let mut i = 0;
    for _ in 0..last.count {
        i += write_next(below, shape, last, next, i)?;
    }
    Ok(())
}

/// Writes a sealed batch to its area, and the blocks of the last one to their places, but for its own, and syncs.
pub(crate) fn write_batch<B: Blocks, A: Allocator + Copy>(
    below: &mut B,
    shape: Shape,
    number: u64,
    last: &Gathered<A>,
    next: &Gathered<A>,
) -> Result<(), Failed>
    requires inside { IsInside shape (B.past_of below.old).file.content }
    requires small { kept_start shape + shape.kept < 2 ^ 64 }
    requires synced { IsSynced (B.past_of below.old).file }
    requires last { IsBuffer last.now }
    requires next { IsBuffer next.now }
    requires size { length next.now.area.items ≡ shape.area }
    requires sealed { IsSealed number next.now }
    ensures within { RunsWithin (MayWrite shape (number % 2) (entries_of last.now)) (B.past_of below.old).file.content
        (B.past_of below.old) (B.past_of below.new) }
    ensures written { OnOk result (IsWritten shape (B.past_of below.new).file.content
        (record { number = number; entries = entries_of next.now })
        (replayed (entries_of last.now) (kept_of shape (B.past_of below.old).file.content))) }
    ensures synced { OnOk result (IsSynced (B.past_of below.new).file) }
    ensures back { B.written_back below.new ≡ B.written_back below.old }
    ensures counts { CountsFailure (B.failures below.old) (B.failures below.new) result }
{
    write_area(below, shape, number, next)?;
    write_places(below, shape, last, next)?;
    below.sync()
}
