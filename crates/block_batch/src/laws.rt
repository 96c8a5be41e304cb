// Laws of a replay.
ghost use Rattle.std.specs.Prelude.{◌≡◌, ◌⊎◌, ◌≤◌, ◌++◌, ℕ, true, List, length, Option, Some, IfSome, Contains};
ghost use Rattle.block_device.specs.Blocks.{CrashFile, block, SameOutside};
ghost use Rattle.block_batch.specs.Batch.{Batch, Entry, count_in, is_batch, batch_in, replayed, IsPlace};
ghost use Rattle.block_batch.specs.Replay.{pending, IsCommitted, AreOffered};

/// A law: a replay sets the places of its blocks alone (`outside`). What agrees with a crash file outside them is
/// replayed to the same, so also what a replay leaves that was cut off (`cut`); and a replay of what is there changes
/// nothing (`again`). Two batches in order are replayed as one (`both`).
pub fn replayed_again()
    ensures outside { (entries : List Entry) (image : CrashFile)
        → SameOutside (IsPlace entries) image (replayed entries image) }
    ensures cut { (entries : List Entry) (image other : CrashFile) → SameOutside (IsPlace entries) image other
        → replayed entries other ≡ replayed entries image }
    ensures again { (entries : List Entry) (image : CrashFile)
        → replayed entries (replayed entries image) ≡ replayed entries image }
    ensures both { (first second : List Entry) (image : CrashFile)
        → replayed (first ++ second) image ≡ replayed second (replayed first image) }
{}

/// A law: what a crash leaves while one batch more is written. One area has the last batch, whole. The other one is
/// torn, and has no batch, or one that was offered. Then a replay gives the blocks as the last batch left them, or as
/// the next one does.
pub fn one_batch_more()
    ensures first { (offered : List Batch) (last next : Batch) (settled kept : CrashFile) (torn : Option Batch)
        → AreOffered offered last next settled → IsCommitted last settled kept
        → IfSome torn (λ x. Contains offered x)
        → (replayed (pending torn (Some last)) kept ≡ settled)
        ⊎ (replayed (pending torn (Some last)) kept ≡ replayed next.entries settled) }
    ensures second { (offered : List Batch) (last next : Batch) (settled kept : CrashFile) (torn : Option Batch)
        → AreOffered offered last next settled → IsCommitted last settled kept
        → IfSome torn (λ x. Contains offered x)
        → (replayed (pending (Some last) torn) kept ≡ settled)
        ⊎ (replayed (pending (Some last) torn) kept ≡ replayed next.entries settled) }
{}

/// A law: an area that is larger, and begins with the blocks of a batch, has that batch.
pub fn in_a_larger_area()
    ensures has { (area other : CrashFile) → length area ≤ length other
        → ((n : ℕ) → n ≤ count_in area → block other n ≡ block area n) → is_batch area ≡ true
        → is_batch other ≡ true }
    ensures same { (area other : CrashFile) → length area ≤ length other
        → ((n : ℕ) → n ≤ count_in area → block other n ≡ block area n) → batch_in other ≡ batch_in area }
{}
