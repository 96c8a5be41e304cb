//! An image of the store is taken from the core, and made current.
ghost use Rattle.std.specs.Prelude.{◌≡◌, ◌≤◌, ◌<◌, List, [], length, false, None, Some, IfSome, IfNone};
ghost use Rattle.restart.specs.declared.event.Reply.{Reply as ReplyValue};
ghost use Rattle.restart.specs.declared.parts.EngineParts.{EngineParts as PartsValue};
ghost use Rattle.restart.specs.Copies.{HaveFlip, HaveNoRefusal, copies, most_copies};
ghost use Rattle.restart.specs.Lawful.{AreLawful};

use crate::Reply;
use crate::parts::EngineParts;
use core_copies::{Copies, each_list, one_copy};
use records::Error;
use sector_device::Device;
use std::alloc::Allocator;
use store_image_model::{Chunk, CopyPlace};
use store_writer::{Copying, FlipReply, FlushReply, StepReply};

/// A law: of as many copies in a row as an image takes at most, none of them refused, one makes an image current: its
/// start, its pages, its entries by chunks, and the flip.
pub fn copies_flip<D: Device, A: Allocator>()
    ensures { (replies : List (ReplyValue A)) (old new : PartsValue D A)
        → AreLawful D.failures (copies replies) replies old new → HaveNoRefusal replies
        → most_copies old.geometry ≤ length replies → HaveFlip replies }
{}

impl<D: Device, A: Allocator + Copy> EngineParts<D, A> {
    ghost use Rattle.store_image_model.specs.declared.chunk.CopyPlace.{CopyPlace};
    ghost use Rattle.store_writer.specs.Copying.{next_place};
    ghost use Rattle.store_writer.specs.Writer.{MayPass};
    ghost use Rattle.store_writer.specs.declared.copying.Copying.TheVariants.{Steps, GivenUp};
    ghost use Rattle.restart.specs.declared.event.Event.TheVariants as event;
    ghost use Rattle.restart.specs.Copies.{IsCopyAnswer};
    ghost use Rattle.restart.specs.Groups.{CopiesByGroups, WritesByGroups};
    ghost use Rattle.restart.specs.Handing.{FlushesFirst, MovesOn};
    ghost use Rattle.restart.specs.Parts.{copying_of, device_of, has_failed, unhanded, writer_of};
    ghost use Rattle.restart.specs.Store.{CanRun, CopiesAround, ServesOn};

    /// Takes the next piece of an image, or makes it current.
    pub(crate) fn copy(&mut self) -> Reply<A>
        requires { CanRun D.past_of self.old }
        ensures serves { ServesOn D.past_of event.Copy result self.old self.new }
        ensures answer { IsCopyAnswer D.failures result self.old self.new }
        ensures groups { CopiesByGroups result self.old self.new }
        ensures around { CopiesAround D.past_of self.old self.new }
        ensures can_run { CanRun D.past_of self.new }
    {
        if self.writer.has_failed() {
            return Reply::Refused(Error::DeviceFailed);
        }
        if !self.hand_over() {
            return Reply::Refused(Error::NoMemory);
        }
        self.copy_handed()
    }

    // So it does where the writer has all records.
    fn copy_handed(&mut self) -> Reply<A>
        requires runs { CanRun D.past_of self.old }
        requires all { unhanded self.old ≡ [] }
        requires sound { has_failed self.old ≡ false }
        ensures moves { MovesOn D.past_of self.old self.new }
        ensures answer { IsCopyAnswer D.failures result self.old self.new }
        ensures groups { copying_of self.old ≡ Steps None
            → WritesByGroups result (writer_of self.old) (writer_of self.new) }
        ensures around { CopiesAround D.past_of self.old self.new }
    {
        match self.writer.copying() {
            Copying::Idle => self.copy_piece(CopyPlace::Start),
            Copying::Steps(next) => match next {
                Some(place) => self.copy_piece(place),
                None => self.flip(),
            },
            Copying::GivenUp => self.copy_all(),
        }
    }

    // Takes the piece of this place; or passes over it, where it is a page that the image's half has, and writes
    // nothing.
    fn copy_piece(&mut self, place: CopyPlace) -> Reply<A>
        requires runs { CanRun D.past_of self.old }
        requires all { unhanded self.old ≡ [] }
        requires sound { has_failed self.old ≡ false }
        requires next { next_place (copying_of self.old) ≡ Some place }
        ensures moves { MovesOn D.past_of self.old self.new }
        ensures answer { IsCopyAnswer D.failures result self.old self.new }
        ensures around { CopiesAround D.past_of self.old self.new }
        ensures spares { MayPass (writer_of self.old) → device_of self.new ≡ device_of self.old }
    {
        each_list();
        one_copy();
        self.writer.next_pieces();
        self.core.stands();
        if self.writer.pass_page() {
            return Reply::Copied;
        }
        self.take_piece(place)
    }

    // Copies the piece of this place, and takes it.
    fn take_piece(&mut self, place: CopyPlace) -> Reply<A>
        requires runs { CanRun D.past_of self.old }
        requires all { unhanded self.old ≡ [] }
        requires sound { has_failed self.old ≡ false }
        requires next { next_place (copying_of self.old) ≡ Some place }
        ensures moves { MovesOn D.past_of self.old self.new }
        ensures answer { IsCopyAnswer D.failures result self.old self.new }
        ensures around { CopiesAround D.past_of self.old self.new }
    {
        each_list();
        one_copy();
        self.writer.next_pieces();
        let chunk = match self.core.copy_step(self.alloc, place) {
            Ok(chunk) => chunk,
            Err(error) => return Reply::Refused(error),
        };
        match self.writer.checkpoint_step(chunk) {
            Ok(StepReply::Taken) => Reply::Copied,
            Ok(StepReply::StartAgain) => Reply::Again,
            Err(error) => Reply::Refused(error),
        }
    }

    // Takes all at once, and makes it current.
    fn copy_all(&mut self) -> Reply<A>
        requires runs { CanRun D.past_of self.old }
        requires all { unhanded self.old ≡ [] }
        requires sound { has_failed self.old ≡ false }
        requires given_up { copying_of self.old ≡ GivenUp }
        ensures moves { MovesOn D.past_of self.old self.new }
        ensures answer { IsCopyAnswer D.failures result self.old self.new }
        ensures around { CopiesAround D.past_of self.old self.new }
    {
        each_list();
        one_copy();
        self.writer.next_pieces();
        let chunk = match self.core.copy_whole(self.alloc) {
            Ok(chunk) => chunk,
            Err(error) => return Reply::Refused(error),
        };
        match self.writer.checkpoint_step(chunk) {
            Ok(StepReply::Taken) => {}
            Ok(StepReply::StartAgain) => unreachable!(),
            Err(error) => return Reply::Refused(error),
        }
        match self.writer.checkpoint_flip() {
            Ok(FlipReply::Flipped(number)) => Reply::Flipped(number),
            Ok(FlipReply::Behind) => unreachable!(),
            Err(error) => Reply::Refused(error),
        }
    }

    // Makes the image current, as soon as enough groups are written.
    fn flip(&mut self) -> Reply<A>
        requires runs { CanRun D.past_of self.old }
        requires all { unhanded self.old ≡ [] }
        requires sound { has_failed self.old ≡ false }
        requires whole { copying_of self.old ≡ Steps None }
        ensures moves { MovesOn D.past_of self.old self.new }
        ensures answer { IsCopyAnswer D.failures result self.old self.new }
        ensures groups { WritesByGroups result (writer_of self.old) (writer_of self.new) }
        ensures around { CopiesAround D.past_of self.old self.new }
    {
        'groups: loop {
            match self.flip_or_flush() {
                Some(reply) => return reply,
                None => {}
            }
        }
    }

    // Makes the image current; or writes one group more, and then there is no answer yet.
    fn flip_or_flush(&mut self) -> Option<Reply<A>>
        requires runs { CanRun D.past_of self.old }
        requires all { unhanded self.old ≡ [] }
        requires sound { has_failed self.old ≡ false }
        requires whole { copying_of self.old ≡ Steps None }
        ensures moves { MovesOn D.past_of self.old self.new }
        ensures answer { IfSome result (λ reply. IsCopyAnswer D.failures reply self.old self.new) }
        ensures flushed { IfNone result (FlushesFirst D.failures self.old self.new) }
        ensures groups { IfSome result (λ reply. WritesByGroups reply (writer_of self.old) (writer_of self.new)) }
        ensures around { CopiesAround D.past_of self.old self.new }
    {
        match self.writer.checkpoint_flip() {
            Ok(FlipReply::Flipped(number)) => return Some(Reply::Flipped(number)),
            Ok(FlipReply::Behind) => {}
            Err(error) => return Some(Reply::Refused(error)),
        }
        match self.writer.flush_group(self.alloc) {
            Ok(FlushReply::Flushed(_)) => None,
            Ok(FlushReply::Nothing) => {
                self.writer.give_up();
                Some(Reply::Again)
            }
            Ok(FlushReply::LogFull) => {
                self.writer.give_up();
                Some(Reply::Again)
            }
            Err(error) => Some(Reply::Refused(error)),
        }
    }
}
