//! The tables of what is present, counted from nothing, by which those that each edit keeps current are checked: by one thread from the
//! PDUs that the sessions keep, or from their octets, which many threads decode and read again.
ghost use Rattle.std.specs.Prelude.{◌≡◌, IfOk};
ghost use Rattle.std.specs.List.{AllZip};
ghost use Rattle.smq_present.specs.whole.Scratch.{scratch};
ghost use Rattle.smq_present.specs.within.Said.{Says};
ghost use Rattle.smq_scratch.specs.within.Joined.{IsJoined};

use crate::joined::Joined;
use crate::received::push_receipt_notes;
use crate::submitted::facts_of;
use rayon::prelude::*;
use smq_present::{
    DecodedSession, Present, SessionReading, SessionView, Tables, decoded_sessions, read_session,
    sessions_with_forms,
};
use std::alloc::{AllocError, Global};
use std::thread::Threads;

/// The tables of what is present: it pairs the PDUs of each session as they were decoded when their octets came, joins the messages
/// with their receipts and routes, and counts them. It looks at nothing that a book stores of them.
pub fn tables_from_nothing(alloc: Global, present: &Present) -> Result<Tables, AllocError>
    ensures { IfOk result (λ tables. tables.shown ≡ scratch present.now) }
{
    let joined = Joined::of(alloc, present)?;
    tables_of(alloc, present, joined)
}

/// The same from the octets that are present: these are decoded again, and paired and read, many sessions at once, and joined and
/// counted then. It looks at nothing that a book stores but the octets with their moments and what is set.
pub fn audit<R: Threads + Sync>(
    rt: &R,
    alloc: Global,
    present: &Present,
) -> Result<Tables, AllocError>
    ensures { IfOk result (λ tables. tables.shown ≡ scratch present.now) }
{
    let kept = sessions_with_forms(alloc, present)?;
    let decoded = decode_all(rt, alloc, kept.as_slice())?;
    let sessions = decoded_sessions(alloc, decoded.as_slice())?;
    let read = read_all(rt, alloc, sessions.as_slice())?;
    let joined = Joined::of_read(alloc, sessions.as_slice(), read)?;
    tables_of(alloc, present, joined)
}

/// The tables of what is present, where it is joined so.
fn tables_of(alloc: Global, present: &Present, joined: Joined<'_>) -> Result<Tables, AllocError>
    requires { IsJoined present.now joined }
    ensures { IfOk result (λ tables. tables.shown ≡ scratch present.now) }
{
    let Joined {
        submits,
        numbers,
        mut notes,
        receipts,
        groups,
    } = joined;
    let groups = groups.as_slice();
    push_receipt_notes(&mut notes, receipts.as_slice(), groups)?;
    let facts = facts_of(
        alloc,
        present,
        submits.as_slice(),
        numbers.as_slice(),
        groups,
    )?;
    let tables = Tables::of(alloc, facts.as_slice(), notes.as_slice())?;
    Ok(tables)
}

/// Equal sessions, whose octets are decoded again, many at once.
fn decode_all<R: Threads + Sync>(
    rt: &R,
    alloc: Global,
    sessions: &[SessionView<'_>],
) -> Result<Vec<DecodedSession>, AllocError>
    ensures { IfOk result (λ decoded. decoded.items ≡ sessions.now) }
{
    let all: Result<Vec<DecodedSession>, AllocError> = sessions
        .par_iter()
        .with_min_len(1)
        .map(
            move |view: &SessionView<'_>| -> Result<DecodedSession, AllocError>
                ensures { IfOk result (λ again. again ≡ view.now) }
            { DecodedSession::of(alloc, view) },
        )
        .collect(rt, alloc)?;
    all
}

/// What each of these sessions says, in their order, many read at once.
fn read_all<'a, R: Threads + Sync>(
    rt: &R,
    alloc: Global,
    sessions: &[SessionView<'a>],
) -> Result<Vec<SessionReading<'a>>, AllocError>
    ensures { IfOk result (λ read. AllZip Says sessions.now read.items) }
{
    let all: Result<Vec<SessionReading<'a>>, AllocError> = sessions
        .par_iter()
        .with_min_len(1)
        .map(
            move |view: &SessionView| -> Result<SessionReading, AllocError>
                ensures { IfOk result (λ traffic. Says view.now traffic) }
            { read_session(alloc, view) },
        )
        .collect(rt, alloc)?;
    all
}
