//! What needs a look: places, in lists. Lists are declared in the order in which reports print them. Whoever adds one
//! gives it its rank here and in specs/Lists.antt, and its name in Names.antt; the law of their order says whether
//! they agree.
ghost use Rattle.std.specs.Prelude.{◌≡◌};

use smq_kit::{Dir, Place, SessionId};
use smq_shelf::ShelfKey;
use std::cmp::Ordering;

/// A list of places.
#[derive(Clone, Copy, Debug, PartialEq, Eq, PartialOrd, Ord)]
pub enum List {
    /// Requests without a response (SMPP 3.4, 3.2), of both directions.
    Waiting,
    /// Responses without a request, of both directions.
    StrayAnswers,
    /// Requests whose response doesn't agree with them, of both directions.
    Mismatched,
    /// Delivery receipts (appendix B) that match no message.
    StrayReceipts,
    /// Delivery receipts that match two messages or more.
    AmbiguousReceipts,
    /// Final delivery receipts, no intermediate notifications, that match one message and don't decide it.
    ExtraReceipts,
    /// deliver_sm and data_sm of the centre that are delivery receipts without a usable message id or state.
    Unreadable,
    /// submit_sm (4.4.1), deliver_sm (4.6.1) and data_sm (4.7.1) whose mandatory fields don't fit in the PDU, of both directions.
    Undecodable,
    /// Where a direction breaks off: the offset of a command_length (5.1.1) out of its range.
    Broken,
    /// Messages that wait for their delivery receipt.
    Open,
    /// Messages that waited for their delivery receipt too long.
    Lapsed,
}

/// The lists, in the order of reports.
static LISTS: [List; 11] = [
    List::Waiting,
    List::StrayAnswers,
    List::Mismatched,
    List::StrayReceipts,
    List::AmbiguousReceipts,
    List::ExtraReceipts,
    List::Unreadable,
    List::Undecodable,
    List::Broken,
    List::Open,
    List::Lapsed,
];

impl List {
    ghost use Rattle.std.specs.Prelude.{◌+◌, slice_get};
    ghost use Rattle.smq_tally.specs.Lists.{lists, list_rank};
    ghost use Rattle.smq_tally.specs.Names.{list_name};
    ghost use Rattle.smq_tally.specs.within.ListOrder.{takes_facts};

    /// All lists, in the order of reports.
    pub fn all() -> &'static [List]
        ensures { result.now ≡ lists }
    {
        LISTS.as_slice()
    }

    /// The name in reports.
    pub fn name(self) -> &'static str
        ensures { result.now ≡ list_name self }
    {
        match self {
            List::Waiting => "waiting",
            List::StrayAnswers => "stray-answers",
            List::Mismatched => "mismatched",
            List::StrayReceipts => "stray-receipts",
            List::AmbiguousReceipts => "ambiguous-receipts",
            List::ExtraReceipts => "extra-receipts",
            List::Unreadable => "unreadable",
            List::Undecodable => "undecodable",
            List::Broken => "broken",
            List::Open => "open",
            List::Lapsed => "lapsed",
        }
    }

    /// Whether messages stand in it for their outcome, beside the places that are noted in it.
    pub(crate) fn takes_facts(self) -> bool
        ensures { result ≡ takes_facts self }
    {
        matches!(self, List::Open | List::Lapsed)
    }

    /// The list after it.
    pub(crate) fn next(self) -> Option<List>
        ensures { result ≡ slice_get lists (list_rank self + 1) }
    {
        match self {
            List::Waiting => Some(List::StrayAnswers),
            List::StrayAnswers => Some(List::Mismatched),
            List::Mismatched => Some(List::StrayReceipts),
            List::StrayReceipts => Some(List::AmbiguousReceipts),
            List::AmbiguousReceipts => Some(List::ExtraReceipts),
            List::ExtraReceipts => Some(List::Unreadable),
            List::Unreadable => Some(List::Undecodable),
            List::Undecodable => Some(List::Broken),
            List::Broken => Some(List::Open),
            List::Open => Some(List::Lapsed),
            List::Lapsed => None,
        }
    }
}

/// A place in a list. Ordered by list, then by place.
#[derive(Clone, Copy, Debug, PartialEq, Eq)]
pub struct Listed {
    pub list: List,
    pub place: Place,
}

impl Listed {
    ghost use Rattle.smq_tally.specs.within.ListOrder.{first_in};

    /// What comes before all others that a list can have.
    pub(crate) fn first_in(list: List) -> Listed
        ensures { result ≡ first_in list }
    {
        let place = Place {
            session: SessionId(0),
            dir: Dir::FromClient,
            offset: 0,
        };
        Listed { list, place }
    }
}

impl PartialOrd for Listed {
    ghost use Rattle.std.specs.Prelude.{refl};
    ghost use Rattle.std.specs.Cmp.{partial_order_from_agreeing_total};
    ghost use Rattle.std.specs.Ordering.{as_partial_cmp};
    ghost use Rattle.smq_tally.specs.within.KeyOrder.{listed_parts_cmp, listed_parts_total, listed_parts_ties};

    ghost partial_cmp = { as_partial_cmp listed_parts_cmp };

    ghost laws = { partial_order_from_agreeing_total listed_parts_cmp listed_parts_total (λ _ _. refl) listed_parts_ties };

    fn partial_cmp(&self, other: &Listed) -> Option<Ordering> {
        Some(self.cmp(other))
    }
}

impl Ord for Listed {
    ghost use Rattle.std.specs.Prelude.{refl};
    ghost use Rattle.smq_tally.specs.within.KeyOrder.{listed_parts_cmp, listed_parts_total, listed_parts_ties};

    ghost cmp = { listed_parts_cmp };

    ghost total = { listed_parts_total };

    ghost matches_partial_cmp = { λ _ _. refl };

    ghost matches_eq = { listed_parts_ties };

    fn cmp(&self, other: &Listed) -> Ordering {
        let a = *self;
        let b = *other;
        if a.list as u8 == b.list as u8 {
            a.place.cmp(&b.place)
        } else {
            (a.list as u8).cmp(&(b.list as u8))
        }
    }
}

impl ShelfKey for Listed {
    ghost use Rattle.smq_tally.specs.within.Keys.{listed_key_exact};

    ghost exact = { listed_key_exact };

    fn copy(&self) -> Listed {
        *self
    }
}
