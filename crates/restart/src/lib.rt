//! A store over two halves: it is opened, serves requests in order, and survives a crash at any moment.
//!
//! Proved: a crash at any moment of `run`, within any write or sync, leaves what some prefix of the requests committed,
//! with each record up to the horizon that the engine had as the call began, and with all that was acknowledged before
//! that moment (`ran`; of a request within the call, up to the horizon as that request began: `served`); and behind the
//! call all that was acknowledged within it too (`at_end`). So it is of an engine that is where a run left it. Each
//! reply is lawful (`lawful`). `restart` opens what a crash of such a run left, and is refused there only for want of
//! memory or by a device that fails (`recovers`, `readable`); where it is refused and the device didn't fail, nothing
//! was written (`unwritten`). With no transaction active, an `Ok` of `build_to_end` over such a store leaves the
//! visible entries just the pairs of the rows (`whole`; `come_by_a_run`: every run leaves such a store).
//! `last_checkpoint`: which pair a build goes on above. `copies_flip`: so many copies make an image current. With none
//! active an engine that served is left as a restart would leave it: `into_writer` gives the writer, with all that the
//! engine holds synced (`written`), and `fresh_core` a core over it (`fresh`). `into_parts` gives core and writer as
//! they are (`parts`), and writes nothing. `migrate` opens over a new device what an old one gives by version 1, and
//! writes nothing on the old one (`migrated`, `kept`); a new device that is too small is told (`too_small`). Only
//! tested (`test_stores`): each allocation refused, and each call of the device failing, in turn; that calls succeed
//! where there is memory. Neither: time; that an engine is left so without its device being read, or with each sector
//! written once at most.
#![tactic(auto)]

mod asking;
mod build;
mod copying;
mod engine;
mod event;
mod lives;
mod migration;
mod parts;
mod reopen;
mod repeat;
mod settling;
mod sound;
mod story;

pub use copying::copies_flip;
pub use engine::Engine;
pub use event::{Event, Reply};
pub use lives::nothing_opens;
pub use migration::{MigrateError, migrate};
pub use reopen::restart;
pub use story::{come_by_a_run, every_story, last_checkpoint};
