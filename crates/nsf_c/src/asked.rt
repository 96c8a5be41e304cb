//! What C asks for.
ghost use Rattle.std.specs.Prelude.{◌≡◌, ◌<◌, ◌≤◌, ℕ, IfOk, IfErr, OnOk, length};
ghost use Rattle.nsf_c.specs.Asked.{Asks, IsBad, IsOfTxn, place_of};

use crate::kind::{
    BEGIN, BUILD, CLEAN, COMMIT, COPY, CREATE, DELETE, DROP, END, FIND, FLUSH, GET, INSERT, LIFE,
    NO_SUCH_EVENT, STEP, UNDO, UPDATE,
};
use records::{BODY_MAX, Body, Error, KEY_MAX, Key, Rid, SLOTS_PER_PAGE, Txn};
use restart::Event;

/// What C asks for. The key and the body stand beside it.
#[repr(C)]
pub struct Asked {
    pub kind: u32,
    pub page: u32,
    pub txn: u64,
    pub slot: u16,
}

/// The key with these bytes.
pub(crate) fn key_of(bytes: &[u8]) -> Result<Key, u32>
    ensures ok { IfOk result (λ key. key ≡ bytes.now) }
    ensures fits { OnOk result (length bytes.now ≤ KEY_MAX) }
    ensures too_long { IfErr result (λ n. (n ≡ 14) × (KEY_MAX < length bytes.now)) }
{
    match Key::new(bytes) {
        Ok(key) => Ok(key),
        Err(error) => Err(u32::from(error.number())),
    }
}

fn body_of(bytes: &[u8]) -> Result<Body, u32>
    ensures ok { IfOk result (λ body. body ≡ bytes.now) }
    ensures fits { OnOk result (length bytes.now ≤ BODY_MAX) }
    ensures too_long { IfErr result (λ n. (n ≡ 15) × (BODY_MAX < length bytes.now)) }
{
    match Body::new(bytes) {
        Ok(body) => Ok(body),
        Err(error) => Err(u32::from(error.number())),
    }
}

/// The place with these numbers.
pub(crate) fn rid_of(page: u32, slot: u16) -> Result<Rid, u32>
    ensures ok { IfOk result (λ rid. rid ≡ record { page = page; slot = slot }) }
    ensures inside { OnOk result (slot < SLOTS_PER_PAGE) }
    ensures none { IfErr result (λ n. (n ≡ 10) × (SLOTS_PER_PAGE ≤ slot)) }
{
    if slot >= SLOTS_PER_PAGE {
        return Err(u32::from(Error::NoSuchRow.number()));
    }
    Ok(Rid { page, slot })
}

impl Asked {
    fn txn(&self) -> Result<Txn, u32>
        ensures ok { IfOk result (λ txn. txn ≡ self.now.txn) }
        ensures some { OnOk result (0 < self.now.txn) }
        ensures none { IfErr result (λ n. (n ≡ 9) × (self.now.txn ≡ 0)) }
    {
        match Txn::new(self.txn) {
            Some(txn) => Ok(txn),
            None => Err(u32::from(Error::NoSuchTxn.number())),
        }
    }

    fn rid(&self) -> Result<Rid, u32>
        ensures ok { IfOk result (λ rid. rid ≡ place_of self.now) }
        ensures inside { OnOk result (self.now.slot < SLOTS_PER_PAGE) }
        ensures none { IfErr result (λ n. (n ≡ 10) × (SLOTS_PER_PAGE ≤ self.now.slot)) }
    {
        rid_of(self.page, self.slot)
    }

    // What is asked of a transaction.
    fn change(&self, key: &[u8], body: &[u8]) -> Result<Event, u32>
        requires { IsOfTxn self.now.kind }
        ensures asks { IfOk result (Asks self.now key.now body.now) }
        ensures fine { OnOk result ((n : ℕ) → ¬ IsBad self.now key.now body.now n) }
        ensures bad { IfErr result (IsBad self.now key.now body.now) }
    {
        let txn = self.txn()?;
        match self.kind {
            INSERT => Ok(Event::Insert {
                txn,
                key: key_of(key)?,
                body: body_of(body)?,
            }),
            DELETE => Ok(Event::Delete {
                txn,
                rid: self.rid()?,
            }),
            UPDATE => Ok(Event::Update {
                txn,
                rid: self.rid()?,
                key: key_of(key)?,
                body: body_of(body)?,
            }),
            STEP => Ok(Event::Step { txn }),
            UNDO => Ok(Event::Undo { txn }),
            END => Ok(Event::End { txn }),
            _ => Ok(Event::Commit { txn }),
        }
    }

    /// The event that is asked for. The error is the number of the refusal: 9 where a transaction has no number, 10
    /// where a place has no such slot, 14 for a key and 15 for a body that is too long, 24 where no event has the kind.
    /// Of several it is the first in this order.
    pub(crate) fn event(&self, key: &[u8], body: &[u8]) -> Result<Event, u32>
        ensures asks { IfOk result (Asks self.now key.now body.now) }
        ensures fine { OnOk result ((n : ℕ) → ¬ IsBad self.now key.now body.now n) }
        ensures bad { IfErr result (IsBad self.now key.now body.now) }
    {
        if INSERT <= self.kind && self.kind <= COMMIT {
            return self.change(key, body);
        }
        match self.kind {
            BEGIN => Ok(Event::Begin),
            CREATE => Ok(Event::Create),
            BUILD => Ok(Event::Build),
            CLEAN => Ok(Event::Clean),
            FLUSH => Ok(Event::Flush),
            COPY => Ok(Event::Copy),
            GET => Ok(Event::Get { rid: self.rid()? }),
            FIND => Ok(Event::Find { key: key_of(key)? }),
            LIFE => Ok(Event::Life),
            DROP => Ok(Event::Drop),
            _ => Err(NO_SUCH_EVENT),
        }
    }
}
