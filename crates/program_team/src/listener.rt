//! What hears of each commit that is safe.
use records::Rid;
use std::fmt;

/// What a transaction of a writer did: it put a row, whose key has these two numbers, at this place; and it deleted the
/// row at another one, if there is one.
#[derive(Clone, Copy)]
pub struct Turn {
    pub writer: u16,
    pub change: u16,
    pub rid: Rid,
    pub deleted: Option<Rid>,
}

impl fmt::Display for Turn {
    fn fmt<W: fmt::Write>(&self, f: &mut fmt::Formatter<W>) -> fmt::Result {
        let Turn {
            writer,
            change,
            rid: Rid { page, slot },
            deleted,
        } = *self;
        write!(f, "row {page}.{slot} :{writer:04x}{change:04x} :")?;
        match deleted {
            Some(Rid { page, slot }) => write!(f, " deleted {page}.{slot}"),
            None => Ok(()),
        }
    }
}

/// What hears of each commit that is safe, by the number of its record, from the thread that waited for it. (That it
/// does, no clause says.)
pub trait Listener {
    fn hear(&self, number: u64, turn: &Turn);
}
