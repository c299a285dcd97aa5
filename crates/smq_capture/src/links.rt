//! Which end of a connection is the centre, and which link it is of.
use smq_packets::{ACK, Address, End, SYN, Segment};

/// A port of a centre, its address where one is named, and the link.
#[derive(Clone, Copy, Debug, PartialEq, Eq)]
pub struct Link {
    pub address: Option<Address>,
    pub port: u16,
    pub link: u32,
}

/// The link of an end, if it has one: one that names its address comes before one that names its port alone.
pub(crate) fn link_of(links: &[Link], end: End) -> Option<u32> {
    let mut found = None;
    for it in links {
        if it.port == end.port {
            match it.address {
                None => {
                    if found.is_none() {
                        found = Some(it.link);
                    }
                }
                Some(address) => {
                    if address == end.address {
                        return Some(it.link);
                    }
                }
            }
        }
    }
    found
}

/// The end that is the centre, and its link; where both have a link, the one that was called.
pub(crate) fn centre_of(links: &[Link], segment: &Segment) -> Option<(End, u32)> {
    let is_called = segment.has(SYN) && segment.has(ACK);
    let (one, other) = if is_called {
        (segment.source, segment.destination)
    } else {
        (segment.destination, segment.source)
    };
    match link_of(links, one) {
        Some(link) => Some((one, link)),
        None => match link_of(links, other) {
            Some(link) => Some((other, link)),
            None => None,
        },
    }
}
