//! The lesser of two numbers that may be there or not.
ghost use Rattle.std.specs.Prelude.{◌≡◌};
ghost use Rattle.smq_capture.specs.Moments.{least_of};

/// The lesser of two numbers, where there is one.
pub(crate) fn least(one: Option<u64>, other: Option<u64>) -> Option<u64>
    ensures { result ≡ least_of one other }
{
    match (one, other) {
        (Some(one), Some(other)) if other < one => Some(other),
        (Some(one), _) => Some(one),
        (None, other) => other,
    }
}
