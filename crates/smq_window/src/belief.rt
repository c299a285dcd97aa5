//! Which moments are believed: one that jumps ahead isn't, until another confirms it.
ghost use Rattle.std.specs.Prelude.{◌≡◌};
ghost use Rattle.smq_window.specs.Belief.{belief_after, no_belief};
ghost use Rattle.smq_window.specs.Belief as defined;

use smq_kit::Moment;

/// A day, in ms.
const DAY: u64 = 86_400_000;

/// The newest moment that is believed, and the one that was doubted right before.
#[derive(Drop)]
pub struct Belief {
    pub(crate) newest: Option<Moment>,
    pub(crate) doubted: Option<Moment>,
}

impl Belief {
    /// Before the first moment.
    pub(crate) fn new() -> Belief
        ensures { result ≡ no_belief }
    {
        Belief {
            newest: None,
            doubted: None,
        }
    }

    /// Takes a moment. Whether it is doubted.
    pub(crate) fn take(&mut self, moment: Moment) -> bool
        ensures doubted { result ≡ defined.is_doubted self.old moment }
        ensures after { self.new ≡ belief_after self.old moment }
    {
        if is_ahead(&self.newest, moment) && !is_near(&self.doubted, moment) {
            self.doubted = Some(moment);
            return true;
        }
        self.newest = Some(later(&self.newest, moment));
        self.doubted = None;
        false
    }
}

/// Whether a moment is more than a day ahead of the newest.
fn is_ahead(newest: &Option<Moment>, moment: Moment) -> bool
    ensures { result ≡ defined.is_ahead newest.now moment }
{
    match newest {
        Some(newest) => moment.milliseconds() > newest.milliseconds() + DAY,
        None => false,
    }
}

/// Whether a moment is no more than a day away from the one that is doubted.
fn is_near(doubted: &Option<Moment>, moment: Moment) -> bool
    ensures { result ≡ defined.is_near doubted.now moment }
{
    match doubted {
        Some(doubted) => {
            let (a, b) = (moment.milliseconds(), doubted.milliseconds());
            a <= b + DAY && b <= a + DAY
        }
        None => false,
    }
}

/// The later of two moments, of which the first may be missing.
pub(crate) fn later(newest: &Option<Moment>, moment: Moment) -> Moment
    ensures { result ≡ defined.later newest.now moment }
{
    match newest {
        Some(newest) => {
            if newest.milliseconds() < moment.milliseconds() {
                moment
            } else {
                *newest
            }
        }
        None => moment,
    }
}
