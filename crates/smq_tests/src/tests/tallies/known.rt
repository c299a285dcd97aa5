//! Facts and notes, and the tables that they give, by hand.
use smq_kit::{Dir, Network};
use smq_tally::{Band, Fact, List, Outcome, View};

pub const CLIENT: Dir = Dir::FromClient;

const CENTRE: Dir = Dir::FromCentre;

/// A place: the session, the direction, the offset.
pub type At = (u64, Dir, u64);

/// What a fact is made of: its place, link, route and network, outcome, status where it was refused, and delays.
pub struct Known {
    pub at: At,
    pub link: u32,
    pub route: Option<(u32, &'static str)>,
    pub outcome: Outcome,
    pub status: Option<u32>,
    pub delays: (Option<Band>, Option<Band>),
}

pub enum Step {
    /// A fact of link 7 without route, error and delays.
    Plain(At, Outcome),
    Fact(Known),
    Note(List, At),
    /// The fact of a place is taken out.
    Remove(At),
    /// A note is taken out.
    Forget(List, At),
    Undo,
    Settle,
}

/// What a row counts by.
pub enum By {
    Link(u32),
    Route(u32),
    NoRoute,
    Network(&'static str),
    NoNetwork,
    Status(u32),
    Band(Band),
}

/// A row: what it counts by, the outcome, the count.
pub type Row = (By, Outcome, u64);

pub struct Case {
    pub what: &'static str,
    pub steps: &'static [Step],
    pub rows: &'static [(View, &'static [Row])],
    pub lists: &'static [(List, &'static [At])],
}

/// Notes in no order, one of them twice.
const MIXED: &[Step] = &[
    Step::Note(List::Mismatched, (10, CENTRE, 16)),
    Step::Note(List::Lapsed, (1, CENTRE, 0)),
    Step::Note(List::Waiting, (65_537, CLIENT, 0)),
    Step::Note(List::Waiting, (10, CLIENT, 65_537)),
    Step::Note(List::Waiting, (9, CENTRE, 0)),
    Step::Note(List::Mismatched, (10, CLIENT, 16)),
    Step::Note(List::Waiting, (65_536, CENTRE, 0)),
    Step::Note(List::Waiting, (10, CLIENT, 65_536)),
    Step::Note(List::StrayAnswers, (9, CLIENT, 33)),
    Step::Note(List::Waiting, (9, CLIENT, 49)),
    Step::Note(List::Waiting, (10, CLIENT, 65_536)),
];

/// The same in order, each once.
const SORTED: &[Step] = &[
    Step::Note(List::Waiting, (9, CLIENT, 49)),
    Step::Note(List::Waiting, (9, CENTRE, 0)),
    Step::Note(List::Waiting, (10, CLIENT, 65_536)),
    Step::Note(List::Waiting, (10, CLIENT, 65_537)),
    Step::Note(List::Waiting, (65_536, CENTRE, 0)),
    Step::Note(List::Waiting, (65_537, CLIENT, 0)),
    Step::Note(List::StrayAnswers, (9, CLIENT, 33)),
    Step::Note(List::Mismatched, (10, CLIENT, 16)),
    Step::Note(List::Mismatched, (10, CENTRE, 16)),
    Step::Note(List::Lapsed, (1, CENTRE, 0)),
];

const OPEN: &[Step] = &[Step::Plain((1, CLIENT, 0), Outcome::Open)];

const OPEN_AND_NOTED: &[Step] = &[
    Step::Note(List::Open, (1, CLIENT, 0)),
    Step::Plain((1, CLIENT, 0), Outcome::Open),
];

const LAPSED: &[Step] = &[Step::Plain((1, CLIENT, 0), Outcome::Lapsed)];

const WAITING: &[Step] = &[Step::Note(List::Waiting, (1, CLIENT, 0))];

const OF_THE_CENTRE: &[Step] = &[Step::Note(List::Waiting, (1, CENTRE, 0))];

/// Steps and other steps, and whether their tables are equal.
pub const EQUAL: &[(&str, &[Step], &[Step], bool)] = &[
    ("the order of notes is open", MIXED, SORTED, true),
    ("a note is missing", WAITING, &[], false),
    ("a direction differs", WAITING, OF_THE_CENTRE, false),
    ("an outcome differs", OPEN, LAPSED, false),
    ("an open message is listed once", OPEN, OPEN_AND_NOTED, true),
];

/// A message that is open, and noted as that too.
const BOTH: At = (1, CLIENT, 0);

const NOTED: At = (2, CLIENT, 0);

const REFUSED: At = (1, CLIENT, 49);

const ONE_REFUSED: &[Row] = &[(By::Status(8), Outcome::Refused, 1)];

/// The stages of one tally: steps, and then the rows of the error view and the places of open messages.
pub const STAGES: &[(&str, &[Step], &[Row], &[At])] = &[
    (
        "messages are taken out",
        &[
            Step::Plain(BOTH, Outcome::Open),
            Step::Fact(Known {
                at: REFUSED,
                link: 7,
                route: None,
                outcome: Outcome::Refused,
                status: Some(8),
                delays: (None, None),
            }),
            Step::Note(List::Open, BOTH),
            Step::Note(List::Open, NOTED),
            Step::Settle,
            Step::Remove(REFUSED),
            Step::Remove(BOTH),
        ],
        &[],
        &[BOTH, NOTED],
    ),
    ("they come back", &[Step::Undo], ONE_REFUSED, &[BOTH, NOTED]),
    (
        "notes are taken out",
        &[
            Step::Forget(List::Open, BOTH),
            Step::Forget(List::Open, NOTED),
        ],
        ONE_REFUSED,
        &[BOTH],
    ),
    (
        "what is settled stays so",
        &[Step::Settle, Step::Remove(BOTH), Step::Undo],
        ONE_REFUSED,
        &[BOTH],
    ),
];

pub const CASES: &[Case] = &[
    Case {
        what: "nothing",
        steps: &[],
        rows: &[(View::Link, &[]), (View::CentreDelay, &[])],
        lists: &[(List::Waiting, &[]), (List::Lapsed, &[])],
    },
    Case {
        what: "each list has its places of both directions, in order, each once",
        steps: MIXED,
        rows: &[(View::Link, &[])],
        lists: &[
            (
                List::Waiting,
                &[
                    (9, CLIENT, 49),
                    (9, CENTRE, 0),
                    (10, CLIENT, 65_536),
                    (10, CLIENT, 65_537),
                    (65_536, CENTRE, 0),
                    (65_537, CLIENT, 0),
                ],
            ),
            (List::StrayAnswers, &[(9, CLIENT, 33)]),
            (List::Mismatched, &[(10, CLIENT, 16), (10, CENTRE, 16)]),
            (List::StrayReceipts, &[]),
            (List::Open, &[]),
            (List::Lapsed, &[(1, CENTRE, 0)]),
        ],
    },
    Case {
        what: "rows stand by value, then outcome; open and lapsed messages are listed beside notes",
        steps: &[
            Step::Plain((2, CLIENT, 49), Outcome::Open),
            Step::Note(List::Open, (2, CLIENT, 0)),
            Step::Fact(Known {
                at: (1, CLIENT, 98),
                link: 300,
                route: Some((9, "23415")),
                outcome: Outcome::Delivered,
                status: None,
                delays: (Some(Band::Over), Some(Band::Early)),
            }),
            Step::Fact(Known {
                at: (1, CLIENT, 0),
                link: 7,
                route: Some((10, "23410")),
                outcome: Outcome::Refused,
                status: Some(88),
                delays: (None, None),
            }),
            Step::Fact(Known {
                at: (1, CLIENT, 49),
                link: 7,
                route: Some((9, "23415")),
                outcome: Outcome::Delivered,
                status: None,
                delays: (Some(Band::Under5Seconds), None),
            }),
            Step::Plain((1, CLIENT, 147), Outcome::Lapsed),
            Step::Plain((1, CLIENT, 196), Outcome::Open),
        ],
        rows: &[
            (
                View::Link,
                &[
                    (By::Link(7), Outcome::Refused, 1),
                    (By::Link(7), Outcome::Delivered, 1),
                    (By::Link(7), Outcome::Lapsed, 1),
                    (By::Link(7), Outcome::Open, 2),
                    (By::Link(300), Outcome::Delivered, 1),
                ],
            ),
            (
                View::Route,
                &[
                    (By::Route(9), Outcome::Delivered, 2),
                    (By::Route(10), Outcome::Refused, 1),
                    (By::NoRoute, Outcome::Lapsed, 1),
                    (By::NoRoute, Outcome::Open, 2),
                ],
            ),
            (
                View::Network,
                &[
                    (By::Network("23410"), Outcome::Refused, 1),
                    (By::Network("23415"), Outcome::Delivered, 2),
                    (By::NoNetwork, Outcome::Lapsed, 1),
                    (By::NoNetwork, Outcome::Open, 2),
                ],
            ),
            (View::Error, &[(By::Status(88), Outcome::Refused, 1)]),
            (
                View::LinkDelay,
                &[
                    (By::Band(Band::Under5Seconds), Outcome::Delivered, 1),
                    (By::Band(Band::Over), Outcome::Delivered, 1),
                ],
            ),
            (
                View::CentreDelay,
                &[(By::Band(Band::Early), Outcome::Delivered, 1)],
            ),
        ],
        lists: &[
            (
                List::Open,
                &[(1, CLIENT, 196), (2, CLIENT, 0), (2, CLIENT, 49)],
            ),
            (List::Lapsed, &[(1, CLIENT, 147)]),
            (List::Broken, &[]),
        ],
    },
];
