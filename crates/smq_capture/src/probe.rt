//! Segments that may be probes, which keep a connection alive (RFC 9293, 3.8.4).
ghost use Rattle.std.specs.Prelude.{◌≡◌, ◌↔◌, IsTrue};
ghost use Rattle.smq_capture.specs.Probe.{MayBeProbe};

/// A segment of one octet that may be garbage.
#[derive(Clone, Copy)]
pub(crate) struct Probe {
    pub(crate) place: u64,
    pub(crate) sequence: u32,
    pub(crate) octet: u8,
}

/// Whether a segment of one octet may be a probe, by its place, the place behind all captured octets, and the one up to which the other
/// end has all.
pub(crate) fn may_be_probe(place: u64, top: u64, acknowledged: u64) -> bool
    ensures { IsTrue result ↔ MayBeProbe place top acknowledged }
{
    top < place && place < acknowledged
}
