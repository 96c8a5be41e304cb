//! Changes of the one row that has a key.
ghost use Rattle.std.specs.Prelude.{◌≡◌, IfOk, OnErr};
ghost use Rattle.program_values.specs.declared.answer.Answer.{Answer as AnswerValue};
ghost use Rattle.program_commands.specs.Keyed.{AnswersKey, IsKeyServed, event_at, is_stepped, only_place, place_found};
ghost use Rattle.program_commands.specs.Keyed.{settled};

use crate::answer::print;
use crate::guarded::GuardedStore;
use crate::outcome::Outcome;
use crate::reply::answer_of;
use program_script::ByteText;
use program_values::Answer;
use records::{Body, Error, Key, Rid, Txn};
use restart::{Event, Reply};
use sector_device::Device;
use std::alloc::Global;
use std::io;
use std::io::Write;

/// What becomes of a row.
#[derive(Clone, Copy)]
pub enum KeyChange {
    /// It is deleted.
    Delete,
    /// Another one is put in its place.
    Update { key: Key, body: Body },
}

/// What a transaction asks of the one row with a key.
#[derive(Clone, Copy)]
pub struct KeyRequest {
    pub txn: Txn,
    pub key: Key,
    pub change: KeyChange,
}

impl KeyRequest {
    ghost use Rattle.program_commands.specs.Keyed.{deletion_asked, update_asked};

    /// That the row with this key is deleted. `KeyTooLong` where it has too many bytes.
    pub fn delete(txn: Txn, key: &ByteText) -> Result<Self, Error>
        ensures { result ≡ deletion_asked txn key.now }
    {
        let key = Key::new(key.as_slice())?;
        Ok(KeyRequest {
            txn,
            key,
            change: KeyChange::Delete,
        })
    }

    /// That the row with the old key gives way to another one. `KeyTooLong`, then `BodyTooLong`, where there are too
    /// many bytes.
    pub fn update(txn: Txn, old: &ByteText, key: &ByteText, body: &ByteText) -> Result<Self, Error>
        ensures { result ≡ update_asked txn old.now key.now body.now }
    {
        let old = Key::new(old.as_slice())?;
        let key = Key::new(key.as_slice())?;
        let body = Body::new(body.as_slice())?;
        Ok(KeyRequest {
            txn,
            key: old,
            change: KeyChange::Update { key, body },
        })
    }

    // The event that makes the change of the row at this place.
    fn event_at(&self, rid: Rid) -> Event
        ensures { result ≡ event_at self.now rid }
    {
        match self.change {
            KeyChange::Delete => Event::Delete { txn: self.txn, rid },
            KeyChange::Update { key, body } => Event::Update {
                txn: self.txn,
                rid,
                key,
                body,
            },
        }
    }
}

// The one place, or what is answered where there is none, or are several.
fn only_place(rids: Vec<Rid>) -> Result<Rid, Answer>
    ensures { result ≡ only_place rids }
{
    match rids.as_slice() {
        [] => Err(Answer::Refused(Error::NoSuchRow)),
        [rid] => Ok(*rid),
        [_, _, ..] => Err(Answer::Several(rids)),
    }
}

// The one place that a search found, or what is answered in place of a change.
fn place_found(found: Reply<Global>, horizon: u64) -> Result<Rid, Answer>
    ensures { result ≡ place_found horizon found }
{
    match found {
        Reply::Found(rids) => only_place(rids),
        other => Err(answer_of(other, horizon)),
    }
}

// Whether a step of a change was made.
fn is_stepped(reply: &Reply<Global>) -> bool
    ensures { result ≡ is_stepped reply.now }
{
    matches!(reply, Reply::Stepped)
}

// The reply to a change all of whose steps were made: that none is owed any more tells that it is made.
fn settled(reply: Reply<Global>) -> Reply<Global>
    ensures { result ≡ settled reply }
{
    match reply {
        Reply::Skipped => Reply::Stepped,
        other => other,
    }
}

impl<D: Device> GuardedStore<D> {
    ghost use Rattle.program_commands.specs.Guarded.{store_of};
    ghost use Rattle.program_commands.specs.Keyed.{Changes, Settles, StepsOn};
    ghost use Rattle.program_commands.specs.Store.{horizon_of};

    // How far the records are synced.
    fn horizon(&self) -> u64
        ensures { result ≡ horizon_of (store_of self.now) }
    {
        self.store().horizon()
    }

    // Where the reply tells of a step, makes the next one.
    fn step_on(&mut self, txn: Txn, reply: Reply<Global>) -> Reply<Global>
        ensures { StepsOn D.past_of D.failures txn reply result self.old self.new }
    {
        if is_stepped(&reply) {
            return self.serve(Event::Step { txn });
        }
        reply
    }

    // Makes the steps that a change still owes: an update owes two, and a third finds that none is owed.
    fn settle(&mut self, txn: Txn) -> Reply<Global>
        ensures { Settles D.past_of D.failures txn result self.old self.new }
    {
        let first = self.serve(Event::Step { txn });
        let second = self.step_on(txn, first);
        let third = self.step_on(txn, second);
        settled(third)
    }

    // Makes a change, with all its steps.
    fn change(&mut self, txn: Txn, event: Event) -> Reply<Global>
        ensures { Changes D.past_of D.failures txn event result self.old self.new }
    {
        let reply = self.serve(event);
        if is_stepped(&reply) {
            return self.settle(txn);
        }
        reply
    }

    // Finds the one row with the key, and changes it.
    fn serve_key(&mut self, asked: &KeyRequest) -> Answer
        ensures { IsKeyServed D.past_of D.failures asked.now result self.old self.new }
    {
        let found = self.serve(Event::Find { key: asked.key });
        match place_found(found, self.horizon()) {
            Ok(rid) => {
                let reply = self.change(asked.txn, asked.event_at(rid));
                answer_of(reply, self.horizon())
            }
            Err(answer) => answer,
        }
    }

    /// Finds the one row with the key by the complete index, makes the change of it with all its steps, and prints the
    /// answer to that. It tells what came of it. Nothing is changed where the search is refused, where no row has the
    /// key, which is answered `NoSuchRow`, or where several have it, which is answered with their places.
    ///
    /// The error is the output's, and then the request was served (`err`).
    pub fn answer_key<W: Write>(
        &mut self,
        asked: &KeyRequest,
        output: &mut W,
    ) -> io::Result<Outcome>
        ensures ok { IfOk result (λ outcome. AnswersKey D.past_of D.failures W.contents asked.now outcome
            self.old self.new output.old output.new) }
        ensures err { OnErr result ((told : AnswerValue)
            × IsKeyServed D.past_of D.failures asked.now told self.old self.new) }
    {
        let answer = self.serve_key(asked);
        let outcome = print(output, &answer)?;
        Ok(outcome)
    }
}
