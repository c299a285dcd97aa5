//! What a member is to its group, and that it became so.

use smq_kit::Place;

/// What a member is to its group.
#[derive(Clone, Copy, Debug, PartialEq, Eq)]
pub enum Standing {
    /// The only submit that is accepted with its key, with the place of the receipt that decides it where there is one.
    Single(Option<Place>),
    /// A submit that shares its key with another, or a receipt that matches several submits.
    Shared,
    /// A receipt that matches no submit.
    Stray,
    /// The receipt that decides the one submit that it matches.
    Deciding,
    /// A receipt that could decide the one submit that it matches, which another decides.
    Extra,
    /// A receipt that matches one submit and can't decide it: its state isn't final, or it is interim.
    Noted,
}

/// A member whose standing changed, or began: its place, and its standing now.
#[derive(Clone, Copy, Debug, PartialEq, Eq)]
pub struct Change {
    pub place: Place,
    pub standing: Standing,
}
