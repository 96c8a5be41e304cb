// What a crash leaves of a journal.
ghost use Rattle.std.specs.Prelude.{◌≡◌, ◌⊎◌, ◌+◌, ◌%◌, ℕ, List, [], ◌∷◌, ◌++◌, length};
ghost use Rattle.block_device.specs.Blocks.{BlockFile, CrashFile, InRun, IsCrashFile, IsWhole, SameOutside};
ghost use Rattle.block_device.specs.Blocks.{after_write};
ghost use Rattle.block_device.specs.BlocksPast.{BlocksPast, LeavesOnly, RunsWithin};
ghost use Rattle.block_batch.specs.Batch.{Batch, replayed, IsPlace};
ghost use Rattle.block_batch.specs.Replay.{AreOffered, IsCommitted};
ghost use Rattle.block_journal.specs.declared.shape.Shape.{Shape};
ghost use Rattle.block_journal.specs.Layout.{recovered, IsHonest};
ghost use Rattle.block_journal.specs.Journal.{AreKnown, StandsFor, MayWrite};

/// A law: what a crash leaves while a batch is committed. The crash file stood for the settled blocks as the commit
/// began, and a crash harms what the commit may write. Under the premise it is recovered as before it, or as after it.
pub fn crash_of_commit()
    ensures { (g : Shape) (image left settled : CrashFile) (last next : Batch) (offered : List Batch)
        → StandsFor g image last settled → AreOffered offered last next settled
        → SameOutside (MayWrite g (next.number % 2) last.entries) image left → IsHonest offered g left
        → (recovered g left ≡ settled) ⊎ (recovered g left ≡ replayed next.entries settled) }
{}

/// A law: calls were made that write only what a commit may write. Whatever a crash leaves at any moment of them is
/// recovered, under the premise, as before the commit, or as after it.
pub fn at_any_moment()
    ensures { (g : Shape) (image settled : CrashFile) (last next : Batch) (offered : List Batch) (old new : BlocksPast)
        → StandsFor g image last settled → AreOffered offered last next settled
        → RunsWithin (MayWrite g (next.number % 2) last.entries) image old new
        → LeavesOnly old new (λ left. IsHonest offered g left
        → (recovered g left ≡ settled) ⊎ (recovered g left ≡ replayed next.entries settled)) }
{}

/// A law: a batch that follows the last one is offered (`offered`). Once it is committed it is known as the last one
/// (`known`), and gave its blocks, which are kept outside its places (`committed`).
pub fn next_is_last()
    ensures offered { (offered : List Batch) (last next : Batch) (settled : CrashFile) → AreKnown offered last settled
        → next.number ≡ last.number + 1 → AreOffered (offered ++ next ∷ []) last next settled }
    ensures known { (offered : List Batch) (last next : Batch) (settled : CrashFile) → AreKnown offered last settled
        → next.number ≡ last.number + 1 → replayed last.entries settled ≡ settled
        → AreKnown (offered ++ next ∷ []) next (replayed next.entries settled) }
    ensures committed { (next : Batch) (settled kept : CrashFile) → SameOutside (IsPlace next.entries) settled kept
        → IsCommitted next (replayed next.entries settled) kept }
{}

/// A law: where a run of blocks was written, and not synced yet, a crash may leave any bytes in it. So what rots in the
/// batch that was written last can't be told from what was torn.
pub fn rotten_or_torn()
    ensures { (file : BlockFile) (first : ℕ) (run rotten : CrashFile)
        → SameOutside (InRun first (length run)) (after_write file first run).content rotten → IsWhole rotten
        → IsCrashFile (after_write file first run) rotten }
{}
