//! Pairs of requests and responses, as PDUs come.
ghost use Rattle.std.specs.Prelude.{◌≡◌, ◌↔◌, ◌≤◌, ◌+◌, ◌*◌, ◌-◌, ◌^◌, ◌||◌, true, min, IfOk, IsTrue, OnErr, OnOk};
ghost use Rattle.std.specs.List.Sorted.{IsStrictlySortedBy};
ghost use Rattle.std.specs.Map.{keys_of};
ghost use Rattle.smq_kit.specs.Orders.{place_cmp};
ghost use Rattle.smq_shelf.specs.Shown.{touched};
ghost use Rattle.smq_shelf.specs.Values.{with_value};
ghost use Rattle.smq_pdu.specs.Pairing.{is_request, is_response};
ghost use Rattle.smq_pair.specs.Growth.{IsNext, pushed};
ghost use Rattle.smq_pair.specs.Paired.{no_pdus};
ghost use Rattle.smq_pair.specs.Pairing.{pair_at, strays, waiting, placed_header};
ghost use Rattle.smq_pair.specs.within.Orders.{exchange_cmp};
ghost use Rattle.smq_pair.specs.within.Waits.{exchange_of, meeting_at};
ghost use Rattle.smq_pair.specs.within.Kept.{are_below, entries_in, joined, pair_found, partner_kept, pdus_in, settled_entries, with_its};

use crate::paired_pdu::{
    Exchange, PairedPdu, PduLink, Role, Series, Waiting, dir_of, meeting_with,
};
use crate::places::Places;
use crate::streams::Streams;
use smq_kit::Place;
use smq_shelf::Kept;
use std::alloc::{AllocError, Global};
use std::marker::Model;

/// A request and its response: their places, whether the response's command_id is the request's with bit 31 set or
/// generic_nack, and the response's command_status (SMPP 3.4, 5.1.2 and 5.1.3).
#[derive(Clone, Copy, Debug, PartialEq, Eq)]
pub struct Pair {
    pub request: Place,
    pub response: Place,
    pub agrees: bool,
    pub status: u32,
}

/// The PDUs of one session and the pairs among them, which can be undone. Pairs go by sequence number and rank: the n-th
/// request of a number in one direction and the n-th response of that number in the other are a pair, whichever of them
/// comes first. A contract sees the PDUs, those that `undo` brings back, and the touches of the shelf that has what
/// waits.
#[derive(Drop)]
pub struct Pairing {
    streams: Streams,
    waits: Kept<Exchange, Waiting>,
}

impl Model for Pairing {
    ghost use Rattle.smq_pair.specs.Paired.{PairedValue};

    ghost Value = { PairedValue };

    ghost use Rattle.smq_pair.specs.within.Kept.{entries_in, pdus_in, settled_entries};

    ghost view = { λ a. record {
      pdus = pdus_in (entries_in a.streams);
      settled = pdus_in (settled_entries a.streams);
      touches = a.waits.touches;
      pending = a.waits.pending;
    } };

    ghost use Rattle.smq_pair.specs.within.Waits.{Holds};

    ghost invariant = { λ a. Holds a.waits.content (entries_in a.streams)
        × Holds a.waits.settled (settled_entries a.streams) };
}

impl Pairing {
    /// A pairing of no PDUs.
    pub fn new(alloc: Global) -> Pairing
        ensures pdus { result.pdus ≡ no_pdus }
        ensures settled { result.settled ≡ no_pdus }
        ensures touches { result.touches ≡ 0 }
        ensures pending { result.pending ≡ 0 }
    {
        Pairing {
            streams: Streams::new(alloc),
            waits: Kept::new(alloc),
        }
    }

    /// Whether a PDU at this place may be added next: it is of the session of those that came, and its offset is above
    /// those of its direction.
    pub fn is_next(&self, place: Place) -> bool
        ensures { IsTrue result ↔ IsNext self.now.pdus place }
    {
        self.streams.are_of(place.session) && self.streams.are_below(place)
    }

    /// Takes the next PDU of its direction by its place and its header (SMPP 3.4, 3.2), and gives the pair that it
    /// makes, if any. An error changes nothing but the touches.
    pub fn add(
        &mut self,
        place: Place,
        seq: u32,
        command: u32,
        status: u32,
    ) -> Result<Option<Pair>, AllocError>
        requires next { IsNext self.old.pdus place }
        ensures added { OnOk result
            (self.new.pdus ≡ pushed self.old.pdus (placed_header place command status seq)) }
        ensures made { IfOk result (λ made. made ≡ pair_at self.new.pdus place) }
        ensures err { OnErr result (self.new.pdus ≡ self.old.pdus) }
        ensures settled { self.new.settled ≡ self.old.settled }
        ensures touches { self.new.touches ≤ self.old.touches + 7 }
        ensures touched { let header = (placed_header place command status seq).header in OnOk result
            ((is_request header || is_response header) ≡ true
            → touched self.old.touches ≤ self.new.touches) }
        ensures counted { self.old.touches ≤ self.new.touches }
        ensures pending { self.new.pending ≤ self.old.pending + 2 }
    {
        let alone = PairedPdu {
            seq,
            command,
            status,
            link: PduLink::Alone,
        };
        match alone.series(place.dir) {
            Some(series) => Ok(meet(&mut self.waits, &mut self.streams, series, place, alone)?),
            None => Ok(self.streams.add(place, None, alone)?),
        }
    }

    /// The pair in which the PDU at a place stands, if there is one. It changes nothing.
    pub fn pair_of(&mut self, place: Place) -> Option<Pair>
        ensures found { result ≡ pair_at self.old.pdus place }
        ensures stays { self.new ≡ self.old }
    {
        self.streams.pair_in(place, self.streams.at(place)?)
    }

    /// The places of the requests that have no response, in order.
    pub fn waiting(&self) -> Places<'_>
        ensures places { result ≡ waiting self.now.pdus }
        ensures in_order { IsStrictlySortedBy place_cmp (waiting self.now.pdus) }
    {
        self.streams.alone(Role::Request)
    }

    /// The places of the responses that have no request, in order.
    pub fn strays(&self) -> Places<'_>
        ensures places { result ≡ strays self.now.pdus }
        ensures in_order { IsStrictlySortedBy place_cmp (strays self.now.pdus) }
    {
        self.streams.alone(Role::Response)
    }

    /// Brings back the PDUs of the last `settle`, or none. It takes no memory.
    pub fn undo(&mut self)
        ensures pdus { self.new.pdus ≡ self.old.settled }
        ensures settled { self.new.settled ≡ self.old.settled }
        ensures pending { self.new.pending ≡ 0 }
        ensures touches { self.new.touches ≤ self.old.touches + self.old.pending }
        ensures counted { self.old.touches ≤ self.new.touches }
    {
        self.streams.undo();
        self.waits.undo();
    }

    /// Makes the PDUs those that `undo` brings back. It takes no memory.
    pub fn settle(&mut self)
        ensures pdus { self.new.pdus ≡ self.old.pdus }
        ensures settled { self.new.settled ≡ self.old.pdus }
        ensures pending { self.new.pending ≡ 0 }
        ensures touches { self.new.touches ≤ self.old.touches + 2 * self.old.pending }
        ensures counted { self.old.touches ≤ self.new.touches }
    {
        self.streams.settle();
        self.waits.settle();
    }

    /// How many touches the shelf of what waits had, saturating.
    pub fn touches(&self) -> u64
        ensures { result ≡ min self.now.touches (2 ^ 64 - 1) }
    {
        self.waits.touches()
    }
}

/// Takes the next PDU of a series: it meets the first that waits on the other side of its exchange, or waits. It gives the
/// pair that it makes. An error changes nothing but the touches.
fn meet(
    waits: &mut Kept<Exchange, Waiting>,
    streams: &mut Streams,
    series: Series,
    place: Place,
    alone: PairedPdu,
) -> Result<Option<Pair>, AllocError>
    requires { are_below place (pdus_in (entries_in streams.old)) ≡ true }
    ensures waits { OnOk result (waits.new.content ≡ with_value exchange_cmp (exchange_of series)
        (meeting_at series place.offset waits.old.content (entries_in streams.old)).waiting
        waits.old.content) }
    ensures ordered { OnOk result
        (IsStrictlySortedBy exchange_cmp (keys_of waits.old.content)) }
    ensures streams { let m = meeting_at series place.offset waits.old.content (entries_in streams.old)
        in OnOk result (entries_in streams.new ≡ joined place.dir place m.before
        (with_its m.link alone) (entries_in streams.old)) }
    ensures made { let m = meeting_at series place.offset waits.old.content (entries_in streams.old)
        in IfOk result (λ made. made ≡ pair_found place (with_its m.link alone)
        (partner_kept place.dir (with_its m.link alone) (entries_in streams.old))) }
    ensures err { OnErr result (waits.new.content ≡ waits.old.content) }
    ensures err_streams { OnErr result (entries_in streams.new ≡ entries_in streams.old) }
    ensures settled { waits.new.settled ≡ waits.old.settled }
    ensures settled_streams { settled_entries streams.new ≡ settled_entries streams.old }
    ensures touches { waits.new.touches ≤ waits.old.touches + 4 }
    ensures touched { OnOk result (touched waits.old.touches ≤ waits.new.touches) }
    ensures counted { waits.old.touches ≤ waits.new.touches }
    ensures pending { waits.new.pending ≤ waits.old.pending + 1 }
{
    // For the proof: their keys ascend.
    let _ = waits.place_count();
    let exchange = series.exchange();
    let waiting = waits.get(&exchange).copied();
    let next = match waiting {
        Some(waiting) => streams.next_of(dir_of(waiting.side, exchange.dir), waiting.first),
        None => None,
    };
    let met = meeting_with(waiting, series.side, place.offset, next);
    match met.waiting {
        Some(waiting) => waits.set(exchange, waiting)?,
        None => waits.remove(&exchange)?,
    }
    let entry = PairedPdu {
        link: met.link,
        ..alone
    };
    match streams.add(place, met.before, entry) {
        Ok(made) => Ok(made),
        Err(error) => {
            waits.take_back();
            Err(error)
        }
    }
}
