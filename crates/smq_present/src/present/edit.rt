//! The edits of a book. Whoever adds one gives it a reply and a step in specs/present, and makes it in `Book::apply`.
ghost use Rattle.std.specs.Prelude.{◌≡◌, IfOk};

use crate::Batch;
use smq_kit::{Digits, Form, LinkId, Moment, Network, RouteId, SessionId, Window};
use std::alloc::AllocError;

/// One change of what is present.
#[derive(PartialEq, Eq, Drop)]
pub enum Edit {
    /// Puts a batch after its direction. The session is made under the batch's link where it isn't present.
    Append {
        batch: Batch,
    },
    /// Takes a session back, with the octets of both its directions. Its number may be used anew, under any link.
    Withdraw {
        session: SessionId,
    },
    /// Sets the forms of a link's message ids.
    SetForm {
        link: LinkId,
        /// That of ids in submit_sm_resp and data_sm_resp.
        response: Form,
        /// That of ids in delivery receipts.
        receipt: Form,
    },
    /// Sets how long a message of a link waits for its receipt before it lapses. Under a greater window a lapsed message may be
    /// open again.
    SetWindow {
        link: LinkId,
        window: Window,
    },
    /// Puts a version of a prefix's route in, which is open and begins at `from`.
    AddRoute {
        /// Digits that begin numbers, from the country code on (E.164).
        prefix: Digits,
        /// The first moment at which it holds.
        from: Moment,
        route: RouteId,
        network: Network,
    },
    /// Ends the version of a prefix's route that begins at `from`.
    EndRoute {
        prefix: Digits,
        from: Moment,
        /// The first moment at which it no longer holds.
        until: Moment,
    },
    /// Gives the version of a prefix's route that begins at `from` another route and network. Its dates stay.
    CorrectRoute {
        prefix: Digits,
        from: Moment,
        route: RouteId,
        network: Network,
    },
    /// Sets the clock, up to which what is present is known: a message that waits for its receipt lapses by it.
    Advance {
        clock: Moment,
    },
}

impl Edit {
    /// An equal edit. It takes no memory: an `Append` shares what its batch was decoded to.
    pub fn copy(&self) -> Result<Edit, AllocError>
        ensures { IfOk result (λ edit. edit ≡ self.now) }
    {
        let copy = match self {
            Edit::Append { batch } => Edit::Append {
                batch: batch.copy()?,
            },
            Edit::Withdraw { session } => Edit::Withdraw { session: *session },
            Edit::SetForm {
                link,
                response,
                receipt,
            } => Edit::SetForm {
                link: *link,
                response: *response,
                receipt: *receipt,
            },
            Edit::SetWindow { link, window } => Edit::SetWindow {
                link: *link,
                window: *window,
            },
            Edit::AddRoute {
                prefix,
                from,
                route,
                network,
            } => Edit::AddRoute {
                prefix: prefix.copy(),
                from: *from,
                route: *route,
                network: network.copy(),
            },
            Edit::EndRoute {
                prefix,
                from,
                until,
            } => Edit::EndRoute {
                prefix: prefix.copy(),
                from: *from,
                until: *until,
            },
            Edit::CorrectRoute {
                prefix,
                from,
                route,
                network,
            } => Edit::CorrectRoute {
                prefix: prefix.copy(),
                from: *from,
                route: *route,
                network: network.copy(),
            },
            Edit::Advance { clock } => Edit::Advance { clock: *clock },
        };
        Ok(copy)
    }
}
