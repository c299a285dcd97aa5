//! What records came to so far.
ghost use Rattle.std.specs.Prelude.{◌≡◌, ◌<◌, ◌+◌, ◌-◌, ◌^◌};
ghost use Rattle.smq_engine.specs.within.Steps.{count_of};

use crate::record::Loss;
use smq_kit::Refusal;

/// What records came to so far.
#[derive(Clone, Copy, Debug, PartialEq, Eq)]
pub struct Totals {
    /// How many rows were refused.
    pub refused: u64,
    /// How many gaps were told.
    pub gaps: u64,
    /// How many octets are missing in them.
    pub octets: u128,
}

impl Totals {
    /// Those of no record.
    pub(crate) fn none() -> Totals
        ensures { result ≡ (record { refused = 0; gaps = 0; octets = 0 }) }
    {
        Totals {
            refused: 0,
            gaps: 0,
            octets: 0,
        }
    }

    /// These with one row more, which may be refused.
    pub(crate) fn with_row(self, refusal: &Option<Refusal>) -> Totals
        requires { self.refused < 2 ^ 64 - 1 }
        ensures { result ≡ record self { refused = self.refused + count_of refusal.now } }
    {
        let refused = match refusal {
            Some(_) => self.refused + 1,
            None => self.refused,
        };
        Totals { refused, ..self }
    }

    /// These with one gap more.
    pub(crate) fn with_loss(self, loss: Loss) -> Totals
        requires gaps { self.gaps < 2 ^ 64 - 1 }
        requires octets { self.octets < 2 ^ 128 - 2 ^ 64 }
        ensures { result ≡ record self { gaps = self.gaps + 1; octets = self.octets + loss.octets } }
    {
        Totals {
            gaps: self.gaps + 1,
            octets: self.octets + u128::from(loss.octets),
            ..self
        }
    }
}
