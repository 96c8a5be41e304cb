//! What the holder of one half knows.
use crate::Session;

/// What the holder of one half knows of its session. It is for proofs alone: no value of it is ever made.
pub struct Knowledge {
    /// It makes the halves, and `number` is that of the next session.
    pub makes: bool,
    /// The number of its session.
    pub number: u64,
    /// 1 for a half of the session, 2 for both halves, and 0 for none.
    pub parts: u64,
    /// The session that it shows.
    pub session: Session,
    /// The session that the other half showed when it was taken in.
    pub beside: Session,
}
