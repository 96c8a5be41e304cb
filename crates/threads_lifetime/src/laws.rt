//! Laws of what an opening is answered.
ghost use Rattle.std.specs.Prelude.{◌≡◌, ◌⊎◌, ◌≤◌, ℕ};
ghost use Rattle.record_values.specs.declared.error.Error.{Error};
ghost use Rattle.record_values.specs.declared.error.Error.TheVariants.{TxnsActive};
ghost use Rattle.core_model.specs.Histories.{CanOpen, Opened};
ghost use Rattle.core_parts.specs.Opening.{opened_of};
ghost use Rattle.nsf_core.specs.Loading.{IsQuiet};
ghost use Rattle.store_reader.specs.Contents.{IsUnreadable};
ghost use Rattle.restart.specs.Parts.{core_of};
ghost use Rattle.restart.specs.declared.parts.EngineParts.{EngineParts};
ghost use Rattle.threads_lifetime.specs.Openings.{IsNotOpenedFrom, IsNotShared, IsOpenedFrom, IsOpenedOver, Opens};
ghost use Rattle.threads_lifetime.specs.Openings.{StoreValue, WasHindered, WasUnread};
ghost use Rattle.threads_lifetime.specs.declared.refusal.OpenError.{OpenError};
ghost use Rattle.threads_lifetime.specs.declared.refusal.OpenError.TheVariants.{Refused, Unsound};

use sector_device::Device;
use std::alloc::Allocator;
use store_reader::one_answer;

/// A law: what a device holds decides what `open_store` answers for 16 seats at most, unless there is no memory or the
/// device fails. A store that opens with something sound is opened (`sound`), and one that opens with something else is
/// told as `Unsound` (`opened`, `unsound`). What a reader refuses is refused so (`unreadable`). Of these two `NoMemory`
/// is told only where nothing was written.
pub fn told_of_a_store<D: Device>()
    ensures opened { (before : D) (count : ℕ) (s : StoreValue D) (o : Opened)
        → IsOpenedOver D.past_of D.failures before count s → Opens (D.past_of before).disk.content o → CanOpen o }
    ensures sound { (before after : D) (count : ℕ) (o : Opened) (e : OpenError) → count ≤ 16
        → Opens (D.past_of before).disk.content o → CanOpen o
        → IsNotShared D.past_of D.failures before count after e → WasHindered e }
    ensures unsound { (before after : D) (count : ℕ) (o : Opened) (e : OpenError) → count ≤ 16
        → Opens (D.past_of before).disk.content o → ¬ CanOpen o
        → IsNotShared D.past_of D.failures before count after e
        → (e ≡ Unsound) ⊎ WasUnread D.past_of before after e }
    ensures unreadable { (before after : D) (count : ℕ) (error : Error) (e : OpenError) → count ≤ 16
        → IsUnreadable (D.past_of before).disk.content error
        → IsNotShared D.past_of D.failures before count after e
        → (e ≡ Refused error) ⊎ WasUnread D.past_of before after e }
{
    one_answer();
}

/// A law: what an engine holds decides what `open_engine` answers for 16 seats at most. Where a transaction is active
/// that is told, and nothing else (`busy`). Where none is and it holds something unsound, that is told, and nothing
/// else, whatever there is of memory (`unsound`). And where what it holds is sound, it is opened, unless there is no
/// memory or the device fails (`opened`, `sound`).
pub fn told_of_an_engine<D: Device, A: Allocator>()
    ensures opened { (engine : EngineParts D A) (count : ℕ) (s : StoreValue D)
        → IsOpenedFrom D.past_of D.failures engine count s
        → IsQuiet (core_of engine) × CanOpen (opened_of (core_of engine)) }
    ensures busy { (old new : EngineParts D A) (count : ℕ) (e : OpenError) → count ≤ 16 → ¬ IsQuiet (core_of old)
        → IsNotOpenedFrom D.past_of D.failures old count new e → (e ≡ Refused TxnsActive) × (new ≡ old) }
    ensures unsound { (old new : EngineParts D A) (count : ℕ) (e : OpenError) → count ≤ 16 → IsQuiet (core_of old)
        → ¬ CanOpen (opened_of (core_of old)) → IsNotOpenedFrom D.past_of D.failures old count new e
        → (e ≡ Unsound) × (new ≡ old) }
    ensures sound { (old new : EngineParts D A) (count : ℕ) (e : OpenError) → count ≤ 16 → IsQuiet (core_of old)
        → CanOpen (opened_of (core_of old)) → IsNotOpenedFrom D.past_of D.failures old count new e → WasHindered e }
{}
