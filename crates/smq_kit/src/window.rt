//! How long a message of a link waits for its receipt before it lapses.
ghost use Rattle.std.specs.Prelude.{◌≡◌, ◌≤◌, ◌↔◌, IsOk, IsTrue, IfOk, IfErr};
ghost use Rattle.smq_kit.specs.Windows.{is_same};

use crate::{LAST_MOMENT, Refusal};
use std::marker::Model;

/// The window of a link whose window was never set, in ms: 48 hours.
pub const OPENING_WINDOW: u64 = 172_800_000;

/// How long a message waits for its receipt before it lapses, in ms, from 1 to `LAST_MOMENT`. A contract sees the number.
#[derive(Clone, Copy, Debug, PartialEq, Eq)]
pub struct Window {
    milliseconds: u64,
}

impl Model for Window {
    ghost use Rattle.std.specs.Prelude.{ℕ, ◌≤◌};

    ghost Value = { ℕ };

    ghost view = { λ w. w.milliseconds };

    ghost invariant = { λ w. (1 ≤ w.milliseconds) × (w.milliseconds ≤ 4102444800000) };

    ghost inverse = { λ n. record { milliseconds = n } };
}

impl Window {
    /// Takes a number of ms. One of 0 or above `LAST_MOMENT` is a `BadWindow`.
    pub fn new(milliseconds: u64) -> Result<Window, Refusal>
        ensures in_range { IsOk result ↔ ((1 ≤ milliseconds) × (milliseconds ≤ LAST_MOMENT)) }
        ensures value { IfOk result (λ window. window ≡ milliseconds) }
        ensures refused { IfErr result (λ refusal. refusal ≡ Refusal.BadWindow) }
    {
        if milliseconds == 0 || milliseconds > LAST_MOMENT {
            return Err(Refusal::BadWindow);
        }
        Ok(Window { milliseconds })
    }

    /// The window of a link whose window was never set.
    pub fn opening() -> Window
        ensures { result ≡ OPENING_WINDOW }
    {
        Window {
            milliseconds: OPENING_WINDOW,
        }
    }

    /// The ms.
    pub fn milliseconds(self) -> u64
        ensures value { result ≡ self }
        ensures in_range { (1 ≤ result) × (result ≤ LAST_MOMENT) }
    {
        self.milliseconds
    }
}

/// Windows are equal exactly where they are one.
pub fn windows_are_told_apart()
    ensures { (a b : Window) → IsTrue (is_same a b) ↔ (a ≡ b) }
{}
