//! A session with its link and that link's forms, which go with each of its PDUs; the places of its PDUs, and its PDUs by their offsets.
ghost use Rattle.std.specs.Prelude.{◌≡◌};
ghost use Rattle.std.specs.Option.{option_copied};
ghost use Rattle.smq_present.specs.pairing.Traffic as traffic;
ghost use Rattle.smq_present.specs.within.Pairs as pairs;
ghost use Rattle.smq_present.specs.within.Pairs.{Rises, from_session};
ghost use Rattle.smq_present.specs.within.Lists.{source_of};

use crate::present::settings::Settings;
use crate::{Forms, Session, StoredPdu};
use smq_kit::{Dir, LinkId, Place, SessionId};

/// A session, its link, and the forms of that link's message ids.
#[derive(Clone, Copy)]
pub struct SessionForms {
    pub session: SessionId,
    pub link: LinkId,
    pub forms: Forms,
}

impl SessionForms {
    /// A session of a number with its link and that link's forms.
    pub fn of_session(settings: &Settings, number: u64, session: &Session) -> SessionForms
        ensures { result ≡ source_of settings.now (number, session.now) }
    {
        SessionForms {
            session: SessionId(number),
            link: session.link,
            forms: settings.forms_of(session.link),
        }
    }
}

/// The place of a PDU.
pub fn place_of(session: SessionId, dir: Dir, pdu: &StoredPdu) -> Place
    ensures { result ≡ traffic.place_of (from_session session) dir pdu.now }
{
    Place {
        session,
        dir,
        offset: pdu.offset,
    }
}

/// The PDU at an offset.
pub fn pdu_at(pdus: &[StoredPdu], offset: u64) -> Option<&StoredPdu>
    requires { Rises 0 pdus.now }
    ensures { option_copied result ≡ pairs.pdu_at pdus.now offset }
{
    match pdus.binary_search_by_key(&offset, |pdu| pdu.offset) {
        Ok(index) => Some(&pdus[index]),
        Err(_) => None,
    }
}
