//! The outcomes, declared in the order in which reports print them. Whoever adds one gives it its rank in specs/Rows.antt and
//! its name in Names.antt; the laws of order say whether they agree.
ghost use Rattle.std.specs.Prelude.{◌≡◌};

/// What became of a message. Of those whose condition holds it is the first.
#[derive(Clone, Copy, Debug, PartialEq, Eq, PartialOrd, Ord)]
pub enum Outcome {
    /// It has no response (SMPP 3.4, 4.4.2).
    Waiting,
    /// Its response's command_id isn't its own with bit 31 set, nor generic_nack (5.1.2).
    Mismatched,
    /// Its response's command_status isn't 0 (5.1.3).
    Refused,
    /// Its response has no message id (5.2.23).
    NoId,
    /// It is accepted, and another accepted message of its link has its key.
    Ambiguous,
    /// Its deciding receipt says that it was delivered (5.2.28).
    Delivered,
    /// It has a deciding receipt with another state.
    Failed,
    /// It asks for no delivery receipt (5.2.17).
    Unasked,
    /// It waited for its delivery receipt too long.
    Lapsed,
    /// It waits for its delivery receipt.
    Open,
}

impl Outcome {
    ghost use Rattle.smq_tally.specs.Names.{outcome_name};

    /// The name in reports.
    pub fn name(self) -> &'static str
        ensures { result.now ≡ outcome_name self }
    {
        match self {
            Outcome::Waiting => "waiting",
            Outcome::Mismatched => "mismatched",
            Outcome::Refused => "refused",
            Outcome::NoId => "noid",
            Outcome::Ambiguous => "ambiguous",
            Outcome::Delivered => "delivered",
            Outcome::Failed => "failed",
            Outcome::Unasked => "unasked",
            Outcome::Lapsed => "lapsed",
            Outcome::Open => "open",
        }
    }
}
