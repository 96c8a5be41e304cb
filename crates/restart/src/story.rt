//! Laws of a store from its beginning on.
ghost use Rattle.std.specs.Prelude.{◌≡◌, ◌⊎◌, ◌≤◌, ℕ, Some};
ghost use Rattle.sector_device.specs.Disk.{CrashState, IsCrashState, IsSynced};
ghost use Rattle.sector_device.specs.DevicePast.{LeavesOnly};
ghost use Rattle.record_values.specs.GeometryValue.{GeometryValue};
ghost use Rattle.record_values.specs.declared.error.Error.{Error};
ghost use Rattle.record_values.specs.declared.pair.Pair.{Pair};
ghost use Rattle.model.specs.Given.{Given};
ghost use Rattle.model.specs.declared.life.Life.TheVariants.{Building};
ghost use Rattle.gate_log.specs.Area.{Refuses};
ghost use Rattle.flip_image.specs.declared.half.Half.TheVariants as half;
ghost use Rattle.flip_image.specs.Store.{IsFormatted, AreGatesClosed};
ghost use Rattle.restart.specs.declared.parts.EngineParts.{EngineParts as PartsValue};
ghost use Rattle.restart.specs.Building.{HasCome};
ghost use Rattle.restart.specs.Migrating.{IsMigrated};
ghost use Rattle.restart.specs.Parts.{core_of, device_of};
ghost use Rattle.restart.specs.Reopening.{IsNotOpened, IsOpened, IsTurned};
ghost use Rattle.core_model.specs.Histories.{CanOpen};
ghost use Rattle.restart.specs.Store.{IsAt, Past, Survives, acknowledged_by, over};
ghost use Rattle.restart.specs.Story.{BeginsOver, GivesStory, IsLeftOf, IsFirstCheckpoint, IsLastCheckpoint};
ghost use Rattle.restart.specs.Story.{KeepsStory, Story, and_run, begun_with, untold};

use crate::lives::nothing_opens;
use sector_device::Device;
use std::alloc::Allocator;
use store_opener::written_back;
use store_reader::{format_gives_nothing, one_answer};

/// A law: from its beginning on a device keeps the story of its store, whatever this engine makes of it, and as often
/// as it does: the story of nothing once it is formatted (`formatted`), or of what an older store gave that was moved
/// to it, where a core may begin with that (`moved`); the same one where its power fails (`crashed`), at any moment of
/// a restart (`cut_short`), and behind one that was refused, or opened it (`behind`). A restart is refused only for
/// want of memory, or where the device failed in the call (`readable`); an engine that it opens begins a run over what
/// was left of the story (`opened`). What a crash leaves of that run, at any moment of it or behind it, gives the story
/// with the run's own history behind it (`ran`), where all that the opening gave was safe already (`safe`); and a
/// device that is synced keeps what it gives (`again`), so that all of this holds of it anew. Each opening may have an
/// allocator of another type: the story doesn't name it.
pub fn every_story<D: Device, A: Allocator>()
    ensures formatted { (g : GeometryValue) (d : D) → IsFormatted g (D.past_of d).disk.content
        → AreGatesClosed g half.A (D.past_of d).disk.content → IsSynced (D.past_of d).disk
        → KeepsStory D.past_of (untold g) d }
    ensures moved { (old : CrashState) (engine : PartsValue D A) (is : IsMigrated old D.past_of engine)
        → CanOpen (over is.opened.geometry is.opened.given)
        → KeepsStory D.past_of (begun_with is.opened.geometry is.opened.given) (device_of engine) }
    ensures crashed { (story : Story) (before after : D) → KeepsStory D.past_of story before
        → IsCrashState (D.past_of before).disk (D.past_of after).disk.content → IsSynced (D.past_of after).disk
        → KeepsStory D.past_of story after }
    ensures cut_short { (story : Story) (before after : D) → KeepsStory D.past_of story before
        → IsTurned D.past_of before after → LeavesOnly (D.past_of before) (D.past_of after) (GivesStory story) }
    ensures behind { (story : Story) (before after : D) → KeepsStory D.past_of story before
        → IsTurned D.past_of before after → KeepsStory D.past_of story after }
    ensures readable { (story : Story) (before after : D) (e : Error) → KeepsStory D.past_of story before
        → IsNotOpened D.past_of D.failures before after e → Refuses (D.failures before) (D.failures after) e }
    ensures opened { (story : Story) (before : D) (engine : PartsValue D A) → KeepsStory D.past_of story before
        → IsOpened D.past_of before engine → BeginsOver D.past_of story engine }
    ensures ran { (story : Story) (past : Past A) (floor : ℕ) (image : CrashState) → past.geometry ≡ story.geometry
        → IsLeftOf story past.given → past.given.last ≤ floor → Survives past floor image
        → GivesStory (and_run story past floor) image }
    ensures again { (story : Story) (d : D) → GivesStory story (D.past_of d).disk.content → IsSynced (D.past_of d).disk
        → KeepsStory D.past_of story d }
    ensures safe { (past : Past A) → past.given.last ≤ acknowledged_by past }
{
    format_gives_nothing();
    one_answer();
    nothing_opens();
    written_back();
}

/// A law: where the index is being built above a pair, in what is left of a story, that pair is of the last checkpoint
/// that the history has up to the last record, and no later item is of the index. Or the store began so, and no item is
/// of the index.
pub fn last_checkpoint()
    ensures { (story : Story) (given : Given) (pair : Pair) → IsLeftOf story given → given.life ≡ Building (Some pair)
        → IsLastCheckpoint story.items given.last pair ⊎ IsFirstCheckpoint story.began story.items given.last pair }
{}

/// A law: the core of an engine that a run left has come to where it is, so that a build that goes on to its end leaves
/// the index whole (`build_to_end`).
pub fn come_by_a_run<D: Device, A: Allocator>()
    ensures { (past : Past A) (engine : PartsValue D A) → IsAt D.past_of past engine → HasCome (core_of engine) }
{}
