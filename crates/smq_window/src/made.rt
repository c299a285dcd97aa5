//! A session that was made of one.
use crate::session::Session;

/// The session that was made of one for a period.
#[derive(Drop)]
pub struct Made {
    pub period: u64,
    pub session: Session,
}
