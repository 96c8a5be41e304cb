//! A law of refusals.
ghost use Rattle.record_values.specs.declared.error.Error.{Error as ErrorValue};
ghost use Rattle.restart.specs.declared.event.Event.{Event};
ghost use Rattle.restart.specs.declared.event.Reply.TheVariants as reply;
ghost use Rattle.program_values.specs.declared.answer.Answer.TheVariants as answer;
ghost use Rattle.program_commands.specs.Guarded.{ServesGuarded};
ghost use Rattle.program_commands.specs.Refusing.{HoldsTheSame};
ghost use Rattle.program_commands.specs.Requested.{Tells};
ghost use Rattle.program_commands.specs.declared.guarded.GuardedStore.{GuardedStore};

use nsf_core::refused_calls;
use sector_device::Device;
use std::io::Write;

/// A law: an event that is refused changes no row and no entry, nor how far the index is (`served`): so a line of a
/// script that asks for one event and is answered with a refusal leaves what the lines before it made (`told`).
pub fn each_change_is_whole<D: Device, W: Write>()
    ensures served { (event : Event) (error : ErrorValue) (old new : GuardedStore D)
        → ServesGuarded D.past_of D.failures event (reply.Refused error) old new → HoldsTheSame old new }
    ensures told { (event : Event) (error : ErrorValue) (old new : GuardedStore D) (before after : W)
        → Tells D.past_of D.failures W.contents event (answer.Refused error) old new before after
        → HoldsTheSame old new }
{
    refused_calls();
}
