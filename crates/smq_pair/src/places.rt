//! The places of the PDUs that stand in no pair, in order: by session, then direction, the client's first, then offset.
ghost use Rattle.std.specs.Prelude.{◌≡◌};
ghost use Rattle.std.specs.Iterator.{YieldsFirstBy, item_count};
ghost use Rattle.smq_pair.specs.within.Kept.{at_offset};

use crate::paired_pdu::{PairedPdu, Role};
use smq_kit::{Dir, Place, SessionId};
use std::marker::Model;
use std::slice::Iter;

/// The places that are still to come. A contract sees their list.
#[derive(Drop)]
pub struct Places<'a> {
    pub(crate) side: Role,
    pub(crate) session: SessionId,
    pub(crate) client: Iter<'a, (u64, PairedPdu)>,
    pub(crate) centre: Iter<'a, (u64, PairedPdu)>,
}

impl<'a> Model for Places<'a> {
    ghost use Rattle.std.specs.Prelude.{List};
    ghost use Rattle.smq_kit.specs.declared.place.Place.{Place};

    ghost Value = { List Place };

    ghost use Rattle.std.specs.Slice.Iter.{iter_rest};
    ghost use Rattle.smq_pair.specs.within.Kept.{places_alone};

    ghost view = { λ p. places_alone p.side
        (record { session = p.session; client = iter_rest p.client; centre = iter_rest p.centre }) };
}

impl<'a> Iterator for Places<'a> {
    type Item = Place;

    ghost next_gives = { YieldsFirstBy (λ x. x) (λ p. p) };

    ghost remaining = { item_count (λ p. p) };

    fn next(&mut self) -> Option<Place> {
        let side = self.side;
        let session = self.session;
        while let Some(held) = self.client.next() {
            if held.1.is_alone(side) {
                return Some(at(session, Dir::FromClient, held.0));
            }
        }
        while let Some(held) = self.centre.next() {
            if held.1.is_alone(side) {
                return Some(at(session, Dir::FromCentre, held.0));
            }
        }
        None
    }
}

/// The place at an offset.
pub(crate) fn at(session: SessionId, dir: Dir, offset: u64) -> Place
    ensures { result ≡ at_offset session dir offset }
{
    Place {
        session,
        dir,
        offset,
    }
}
