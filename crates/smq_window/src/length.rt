//! How long a window is.
ghost use Rattle.std.specs.Prelude.{◌≡◌, ◌≤◌, ◌↔◌, IsSome, IfSome};
ghost use Rattle.smq_window.specs.Window.{oldest_of, present_of};

use crate::belief::Belief;
use crate::periods::Span;
use std::marker::Model;

/// The most periods that may be kept before the present one.
pub const MOST_STEPS: u64 = 60;

/// How long a period is, in ms, and how many are kept before the present one. A contract sees both numbers.
#[derive(Clone, Copy)]
pub struct Length {
    step: u64,
    steps: u64,
}

impl Model for Length {
    ghost use Rattle.std.specs.Prelude.{ℕ, ◌≤◌};

    ghost Value = { ℕ × ℕ };

    ghost view = { λ l. (l.step, l.steps) };

    ghost invariant = { λ l. (1 ≤ l.step) × (1 ≤ l.steps) × (l.steps ≤ 60) };

    ghost inverse = { λ v. record { step = v.0; steps = v.1 } };
}

impl Length {
    /// Periods of so many ms, of which so many are kept before the present one: 1 to `MOST_STEPS`.
    pub fn new(step: u64, steps: u64) -> Option<Length>
        ensures in_range { IsSome result ↔ ((1 ≤ step) × (1 ≤ steps) × (steps ≤ MOST_STEPS)) }
        ensures value { IfSome result (λ length. length ≡ (step, steps)) }
    {
        if step == 0 || steps == 0 || steps > MOST_STEPS {
            return None;
        }
        Some(Length { step, steps })
    }

    /// The periods that are kept.
    pub(crate) fn span(&self, belief: &Belief) -> Span
        ensures long { 1 ≤ self.now.0 }
        ensures value { result ≡ (record { oldest = oldest_of self.now belief.now; present = present_of self.now belief.now }) }
    {
        let step = self.step;
        let present = match &belief.newest {
            Some(newest) => newest.milliseconds() / step,
            None => 0,
        };
        Span {
            oldest: present.saturating_sub(self.steps),
            present,
        }
    }
}
