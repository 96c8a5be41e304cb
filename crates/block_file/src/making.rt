//! The file of a new device is laid out.
ghost use Rattle.std.specs.Prelude.{◌≡◌, ◌≢◌, ◌+◌, ◌*◌, ◌^◌, ◌<◌, ◌≤◌, ℕ, [], Some, length, slice_index, slice_set};
ghost use Rattle.std.specs.Prelude.{OnOk};
ghost use Rattle.sector_device.specs.DevicePast.{CountsFailure};
ghost use Rattle.block_device.specs.Blocks.{CrashFile, InRun, IsSynced, block, zero_block};
ghost use Rattle.block_device.specs.BlocksPast.{BlocksPast, RunsWithin};
ghost use Rattle.block_batch.specs.Batch.{block_digest};
ghost use Rattle.block_journal.specs.Layout.{IsInside, area_of, found, kept_of};
ghost use Rattle.block_file.specs.Header.{CanBeTold, TellTwice, plan_told};
ghost use Rattle.block_file.specs.Making.{AreBegun, BecomesZeros, HoldsZeros, IsBehind, IsNewBlock};

use crate::Plan;
use crate::header::spell_header;
use block_batch::{block_digest, seal};
use block_device::{BLOCK_SIZE, Blocks, WORDS, few_blocks, spell_words, zero_block};
use block_journal::Shape;
use sector_device::Failed;

// The digests of blocks of zeros, as the k-th block of a table of so many has them.
fn zero_digests(table: u64, k: u64) -> [u64; WORDS]
    requires few { table < 2 ^ 52 }
    requires inside { k < table }
    ensures { (i : ℕ) → i < WORDS → slice_index result i ≡ block_digest (table + (512 * k + i)) zero_block }
{
    let zeros = zero_block();
    let mut words = [0; WORDS];
    for i in 0..WORDS {
        words[i] = block_digest(table + (512 * k + i as u64), &zeros);
    }
    words
}

// The k-th block that the journal of a new device keeps: a table of so many blocks, and behind it the data.
fn new_block(table: u64, k: u64) -> [u8; BLOCK_SIZE]
    requires { table < 2 ^ 52 }
    ensures { IsNewBlock table k result }
{
    if k >= table {
        return zero_block();
    }
    spell_words(&zero_digests(table, k))
}

// Writes a block behind the headers.
fn write_one<B: Blocks>(below: &mut B, n: u64, bytes: &[u8; BLOCK_SIZE]) -> Result<(), Failed>
    requires behind { 2 ≤ n }
    requires inside { n < length (B.past_of below.old).file.content }
    ensures ok { OnOk result ((B.past_of below.new).file.content
        ≡ slice_set (B.past_of below.old).file.content n bytes.now) }
    ensures size { length (B.past_of below.new).file.content ≡ length (B.past_of below.old).file.content }
    ensures within { (image : CrashFile) (start : BlocksPast) → RunsWithin IsBehind image start (B.past_of below.old)
        → RunsWithin IsBehind image start (B.past_of below.new) }
    ensures back { B.written_back below.new ≡ B.written_back below.old }
    ensures counts { CountsFailure (B.failures below.old) (B.failures below.new) result }
{
    below.write(n, &[*bytes])
}

// Writes each block that the journal of a new device keeps, from the first one's number on.
fn write_kept<B: Blocks>(below: &mut B, first: u64, table: u64, count: u64) -> Result<(), Failed>
    requires few { table < 2 ^ 52 }
    requires behind { 2 ≤ first }
    requires inside { first + count ≤ length (B.past_of below.old).file.content }
    ensures kept { OnOk result ((k : ℕ) → k < count
        → IsNewBlock table k (block (B.past_of below.new).file.content (first + k))) }
    ensures size { length (B.past_of below.new).file.content ≡ length (B.past_of below.old).file.content }
    ensures within { (image : CrashFile) (start : BlocksPast) → RunsWithin IsBehind image start (B.past_of below.old)
        → RunsWithin IsBehind image start (B.past_of below.new) }
    ensures back { B.written_back below.new ≡ B.written_back below.old }
    ensures counts { CountsFailure (B.failures below.old) (B.failures below.new) result }
{
    few_blocks(below);
    for k in 0..count {
        write_one(below, first + k, &new_block(table, k))?;
    }
    Ok(())
}

// Writes an empty batch to an area, of the number of that.
fn begin_area<B: Blocks>(below: &mut B, shape: Shape, a: u64) -> Result<(), Failed>
    requires inside { IsInside shape (B.past_of below.old).file.content }
    requires behind { 2 ≤ shape.first }
    requires low { a < 2 }
    ensures begun { OnOk result (found shape (B.past_of below.new).file.content a
        ≡ Some (record { number = a; entries = [] })) }
    ensures other { OnOk result ((b : ℕ) → b < 2 → b ≢ a → area_of shape (B.past_of below.new).file.content b
        ≡ area_of shape (B.past_of below.old).file.content b) }
    ensures kept { OnOk result (kept_of shape (B.past_of below.new).file.content
        ≡ kept_of shape (B.past_of below.old).file.content) }
    ensures size { length (B.past_of below.new).file.content ≡ length (B.past_of below.old).file.content }
    ensures within { (image : CrashFile) (start : BlocksPast) → RunsWithin IsBehind image start (B.past_of below.old)
        → RunsWithin IsBehind image start (B.past_of below.new) }
    ensures back { B.written_back below.new ≡ B.written_back below.old }
    ensures counts { CountsFailure (B.failures below.old) (B.failures below.new) result }
{
    few_blocks(below);
    let mut head = [[0; BLOCK_SIZE]];
    seal(&mut head, a, &[], &[]);
    write_one(below, shape.first + a * shape.area, &head[0])
}

// Writes all of a new device but its headers, and syncs.
fn write_behind<B: Blocks>(below: &mut B, plan: Plan) -> Result<(), Failed>
    requires told { CanBeTold plan }
    requires room { IsInside plan.shape (B.past_of below.old).file.content }
    ensures zeros { OnOk result (HoldsZeros plan (B.past_of below.new).file.content) }
    ensures begun { OnOk result (AreBegun plan.shape (B.past_of below.new).file.content) }
    ensures synced { OnOk result (IsSynced (B.past_of below.new).file) }
    ensures size { length (B.past_of below.new).file.content ≡ length (B.past_of below.old).file.content }
    ensures within { (image : CrashFile) (start : BlocksPast) → RunsWithin IsBehind image start (B.past_of below.old)
        → RunsWithin IsBehind image start (B.past_of below.new) }
    ensures back { B.written_back below.new ≡ B.written_back below.old }
    ensures counts { CountsFailure (B.failures below.old) (B.failures below.new) result }
{
    few_blocks(below);
    let shape = plan.shape;
    let first = shape.first + 2 * shape.area;
    let table = shape.kept - plan.blocks;
    write_kept(below, first, table, shape.kept)?;
    begin_area(below, shape, 0)?;
    begin_area(below, shape, 1)?;
    below.sync()
}

// Writes a header to both of its places, and syncs.
fn write_headers<B: Blocks>(below: &mut B, header: &[u8; BLOCK_SIZE]) -> Result<(), Failed>
    requires room { 2 ≤ length (B.past_of below.old).file.content }
    requires synced { IsSynced (B.past_of below.old).file }
    ensures first { OnOk result (block (B.past_of below.new).file.content 0 ≡ header.now) }
    ensures second { OnOk result (block (B.past_of below.new).file.content 1 ≡ header.now) }
    ensures synced { OnOk result (IsSynced (B.past_of below.new).file) }
    ensures within { RunsWithin (InRun 0 2) (B.past_of below.old).file.content (B.past_of below.old)
        (B.past_of below.new) }
    ensures back { B.written_back below.new ≡ B.written_back below.old }
    ensures counts { CountsFailure (B.failures below.old) (B.failures below.new) result }
{
    below.write(0, &[*header, *header])?;
    below.sync()
}

/// Lays out the file of a new device, whose sectors are of zeros: each block with its digest, and an empty batch in
/// each area of the journal; behind a sync the header, twice. What the file had before is lost.
///
/// Whatever it answers, a crash at any moment of it leaves headers that tell what they told before, or zeros
/// (`any_moment`). Nothing is written back (`back`).
pub fn lay_out<B: Blocks>(below: &mut B, plan: Plan) -> Result<(), Failed>
    requires told { CanBeTold plan }
    requires room { IsInside plan.shape (B.past_of below.old).file.content }
    requires synced { IsSynced (B.past_of below.old).file }
    ensures told { OnOk result (plan_told (B.past_of below.new).file.content ≡ Some plan) }
    ensures headers { OnOk result (TellTwice plan (B.past_of below.new).file.content) }
    ensures zeros { OnOk result (HoldsZeros plan (B.past_of below.new).file.content) }
    ensures begun { OnOk result (AreBegun plan.shape (B.past_of below.new).file.content) }
    ensures synced { OnOk result (IsSynced (B.past_of below.new).file) }
    ensures any_moment { BecomesZeros plan (B.past_of below.old) (B.past_of below.new) }
    ensures size { length (B.past_of below.new).file.content ≡ length (B.past_of below.old).file.content }
    ensures back { B.written_back below.new ≡ B.written_back below.old }
    ensures counts { CountsFailure (B.failures below.old) (B.failures below.new) result }
{
    write_behind(below, plan)?;
    write_headers(below, &spell_header(plan))
}
