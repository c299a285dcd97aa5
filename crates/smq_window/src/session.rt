//! The sessions that are made of one, a period each.
ghost use Rattle.std.specs.Prelude.{◌≡◌, ◌≤◌, ◌↔◌, IsSome, IfSome};
ghost use Rattle.smq_window.specs.Session.{session_number};

use smq_kit::SessionId;
use std::marker::Model;

/// So many sessions may be made of one.
const MOST_OF_ONE: u64 = 1_000_000_000;

/// The last number of a session of which others may be made.
pub const LAST_SESSION: u64 = 18_446_744_072;

/// A session of which others are made. A contract sees its number.
#[derive(Clone, Copy, Debug, PartialEq, Eq)]
pub struct Session {
    number: u64,
}

impl Model for Session {
    ghost use Rattle.std.specs.Prelude.{ℕ, ◌≤◌};

    ghost Value = { ℕ };

    ghost view = { λ s. s.number };

    ghost invariant = { λ s. s.number ≤ 18446744072 };

    ghost inverse = { λ n. record { number = n } };
}

impl Session {
    /// The session of a number, where others may be made of it.
    pub fn new(number: u64) -> Option<Session>
        ensures in_range { IsSome result ↔ (number ≤ LAST_SESSION) }
        ensures value { IfSome result (λ session. session ≡ number) }
    {
        if number > LAST_SESSION {
            return None;
        }
        Some(Session { number })
    }

    /// The number.
    pub fn number(self) -> u64
        ensures value { result ≡ self }
        ensures in_range { result ≤ LAST_SESSION }
    {
        self.number
    }

    /// The session that is made of it for a period.
    pub fn of_period(self, period: u64) -> SessionId
        ensures { result ≡ (record { 0 = session_number self period }) }
    {
        SessionId(self.number * MOST_OF_ONE + period % MOST_OF_ONE)
    }
}
