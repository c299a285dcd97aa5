//! Sessions, each with its number, its link and that link's forms, and what each says: its submitted messages and its notes. Its PDUs
//! are walked more than once: for its pairs, its messages and each kind of note. Receipts are read apart.
ghost use Rattle.std.specs.Prelude.{◌≡◌, IfOk};
ghost use Rattle.std.specs.List.{AllZip, flat_map};
ghost use Rattle.smq_present.specs.within.Sourced.{sourced_of};
ghost use Rattle.smq_present.specs.within.Said.{Says};

use crate::pairing::notes::push_notes;
use crate::pairing::pairs::SessionForms;
use crate::pairing::sides::sides_of;
use crate::pairing::submits::{SubmittedMessage, push_submits};
use crate::{Listed, Present, Session};
use std::alloc::{AllocError, Global};
use std::marker::Model;

/// A session, with its number, its link and that link's forms.
#[derive(Drop)]
pub struct SessionView<'a> {
    pub source: SessionForms,
    pub session: &'a Session,
}

impl<'a> Model for SessionView<'a> {
    ghost use Rattle.smq_present.specs.within.Sourced.{SessionView};

    ghost Value = { SessionView };

    ghost view = { λ s. record { source = s.source; session = s.session.now } };
}

/// A session whose octets were decoded again, with its number, its link and that link's forms.
#[derive(Drop)]
pub struct DecodedSession {
    pub source: SessionForms,
    pub session: Session,
}

impl Model for DecodedSession {
    ghost use Rattle.smq_present.specs.within.Sourced.{SessionView};

    ghost Value = { SessionView };

    ghost view = { λ s. record { source = s.source; session = s.session } };
}

impl DecodedSession {
    /// A session, with its octets decoded again.
    pub fn of(alloc: Global, view: &SessionView<'_>) -> Result<DecodedSession, AllocError>
        ensures { IfOk result (λ again. again ≡ view.now) }
    {
        Ok(DecodedSession {
            source: view.source,
            session: view.session.decoded_again(alloc)?,
        })
    }
}

/// The sessions that are present, in the order of their numbers.
pub fn sessions_with_forms(
    alloc: Global,
    present: &Present,
) -> Result<Vec<SessionView<'_>>, AllocError>
    ensures { IfOk result (λ made. made.items ≡ sourced_of present.now) }
{
    let mut made = Vec::new(alloc);
    for (number, session) in present.sessions() {
        let source = SessionForms::of_session(present.settings(), *number, session);
        made.push(SessionView { source, session })?;
    }
    Ok(made)
}

/// The same sessions, where their octets were decoded again.
pub fn decoded_sessions(
    alloc: Global,
    decoded: &[DecodedSession],
) -> Result<Vec<SessionView<'_>>, AllocError>
    ensures { IfOk result (λ made. made.items ≡ decoded.now) }
{
    let mut made = Vec::with_capacity(alloc, decoded.len())?;
    for again in decoded {
        made.push(SessionView {
            source: again.source,
            session: &again.session,
        })?;
    }
    Ok(made)
}

/// What a session says, or sessions do: the submitted messages, and the places that need a look.
#[derive(Drop)]
pub struct SessionReading<'a> {
    pub submits: Vec<SubmittedMessage<'a>>,
    pub notes: Vec<Listed>,
}

/// What a session says, in the order of its PDUs.
pub fn read_session<'a>(
    alloc: Global,
    view: &SessionView<'a>,
) -> Result<SessionReading<'a>, AllocError>
    ensures { IfOk result (λ traffic. Says view.now traffic) }
{
    let source = view.source;
    let session = view.session;
    let (client, centre) = sides_of(alloc, source.session, session)?;
    let mut submits = Vec::new(alloc);
    push_submits(&mut submits, source, &client)?;
    let mut notes = Vec::new(alloc);
    push_notes(&mut notes, source.session, session, &client, &centre)?;
    Ok(SessionReading { submits, notes })
}

/// What each of these sessions says, in their order.
pub fn read_sessions<'a>(
    alloc: Global,
    sessions: &[SessionView<'a>],
) -> Result<Vec<SessionReading<'a>>, AllocError>
    ensures { IfOk result (λ read. AllZip Says sessions.now read.items) }
{
    let mut read = Vec::with_capacity(alloc, sessions.len())?;
    for view in sessions {
        read.push(read_session(alloc, view)?)?;
    }
    Ok(read)
}

/// What sessions say, of each in turn, as one.
pub fn concatenated<'a>(
    alloc: Global,
    read: Vec<SessionReading<'a>>,
) -> Result<SessionReading<'a>, AllocError>
    ensures submits { IfOk result (λ all. all.submits.items
        ≡ flat_map (λ traffic. traffic.submits.items) read.entry.items) }
    ensures notes { IfOk result (λ all. all.notes.items
        ≡ flat_map (λ traffic. traffic.notes.items) read.entry.items) }
{
    let mut submits = Vec::new(alloc);
    let mut notes = Vec::new(alloc);
    for traffic in read {
        let SessionReading {
            submits: mut more,
            notes: mut noted,
        } = traffic;
        submits.append(&mut more)?;
        notes.append(&mut noted)?;
    }
    Ok(SessionReading { submits, notes })
}
