//! The views, declared in the order in which reports print them. Whoever adds one gives it its rank here and in
//! specs/Rows.antt, and its name in Names.antt; the laws of order say whether they agree.
ghost use Rattle.std.specs.Prelude.{◌≡◌};

/// A way to count messages by a value.
#[derive(Clone, Copy, Debug, PartialEq, Eq, PartialOrd, Ord)]
pub enum View {
    /// By the link.
    Link,
    /// By the route of its number.
    Route,
    /// By the network of its number.
    Network,
    /// By why it failed.
    Error,
    /// By the time from the message to its deciding receipt, on this link.
    LinkDelay,
    /// By the time from the submit date to the done date of its deciding receipt (SMPP 3.4, appendix B), by the centre's clock.
    CentreDelay,
}

/// The views, in the order of reports.
static VIEWS: [View; 6] = [
    View::Link,
    View::Route,
    View::Network,
    View::Error,
    View::LinkDelay,
    View::CentreDelay,
];

impl View {
    ghost use Rattle.std.specs.Prelude.{◌+◌, slice_get};
    ghost use Rattle.smq_tally.specs.Names.{view_name};
    ghost use Rattle.smq_tally.specs.Rows.{views, view_rank};

    /// All views, in the order of reports.
    pub fn all() -> &'static [View]
        ensures { result.now ≡ views }
    {
        VIEWS.as_slice()
    }

    /// The name in commands and reports.
    pub fn name(self) -> &'static str
        ensures { result.now ≡ view_name self }
    {
        match self {
            View::Link => "link",
            View::Route => "route",
            View::Network => "network",
            View::Error => "error",
            View::LinkDelay => "link-delay",
            View::CentreDelay => "centre-delay",
        }
    }

    /// The view after it.
    pub(crate) fn next(self) -> Option<View>
        ensures { result ≡ slice_get views (view_rank self + 1) }
    {
        match self {
            View::Link => Some(View::Route),
            View::Route => Some(View::Network),
            View::Network => Some(View::Error),
            View::Error => Some(View::LinkDelay),
            View::LinkDelay => Some(View::CentreDelay),
            View::CentreDelay => None,
        }
    }
}
