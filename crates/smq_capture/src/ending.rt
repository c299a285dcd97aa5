//! How a direction ends: by a FIN or a reset.
ghost use Rattle.std.specs.Prelude.{◌≡◌, ◌↔◌, IsTrue, Some};
ghost use Rattle.std.specs.Option.{option_or};
ghost use Rattle.smq_capture.specs.Ending.{HasAllUpTo};

/// The place of a direction's FIN, once one more came: the first one's.
pub(crate) fn fin_with(fin: Option<u64>, place: Option<u64>) -> Option<u64>
    ensures { result ≡ option_or fin place }
{
    if fin.is_none() { place } else { fin }
}

/// Whether all octets up to a FIN came, and none wait.
pub(crate) fn is_ended(fin: Option<u64>, next: u64, has_gap: bool) -> bool
    ensures { IsTrue result ↔ HasAllUpTo fin next has_gap }
{
    fin == Some(next) && !has_gap
}

/// Whether a reset with a number at a place counts.
pub(crate) fn is_reset(place: Option<u64>, next: u64) -> bool
    ensures { IsTrue result ↔ (place ≡ Some next) }
{
    place == Some(next)
}
