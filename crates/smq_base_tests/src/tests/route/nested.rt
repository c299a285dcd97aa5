//! A plan of prefixes that begin each other, with neighbours between them.
use crate::tests::route::{Edit, LAST, Plan, Reply, Step};

pub static NESTED: Plan = Plan {
    fact: "a shorter prefix holds where the longest hasn't begun or has ended, whichever neighbours stand between",
    steps: &[
        Step::Edit(
            Edit::Add(b"4477", 0, 2, b"23402"),
            Reply::Made(&[(b"4477", 0, None, 2, b"23402")]),
        ),
        Step::Edit(
            Edit::Add(b"44770090", 1000, 4, b"23404"),
            Reply::Made(&[
                (b"4477", 0, None, 2, b"23402"),
                (b"44770090", 1000, None, 4, b"23404"),
            ]),
        ),
        Step::Edit(
            Edit::End(b"44770090", 1000, 2000),
            Reply::Made(&[
                (b"4477", 0, None, 2, b"23402"),
                (b"44770090", 1000, Some(2000), 4, b"23404"),
            ]),
        ),
        Step::At(b"447700900123", 0, Some((2, b"23402"))),
        Step::At(b"447700900123", 2000, Some((2, b"23402"))),
        Step::Edit(
            Edit::Add(b"44770089", 0, 3, b"23403"),
            Reply::Made(&[
                (b"4477", 0, None, 2, b"23402"),
                (b"44770089", 0, None, 3, b"23403"),
                (b"44770090", 1000, Some(2000), 4, b"23404"),
            ]),
        ),
        Step::Edit(
            Edit::Add(b"44", 0, 1, b"23401"),
            Reply::Made(&[
                (b"44", 0, None, 1, b"23401"),
                (b"4477", 0, None, 2, b"23402"),
                (b"44770089", 0, None, 3, b"23403"),
                (b"44770090", 1000, Some(2000), 4, b"23404"),
            ]),
        ),
        Step::At(b"447700900123", 999, Some((2, b"23402"))),
        Step::At(b"447700900123", 1000, Some((4, b"23404"))),
        Step::At(b"447700900123", 1999, Some((4, b"23404"))),
        Step::At(b"447700900123", 2000, Some((2, b"23402"))),
        Step::At(b"44770090", 1500, Some((4, b"23404"))),
        Step::At(b"44770090", 999, Some((2, b"23402"))),
        Step::At(b"44770089", 0, Some((3, b"23403"))),
        Step::At(b"4477008", 1500, Some((2, b"23402"))),
        Step::At(b"447700", 1500, Some((2, b"23402"))),
        Step::At(b"4476999", 0, Some((1, b"23401"))),
        Step::At(b"44", 0, Some((1, b"23401"))),
        Step::At(b"4", 0, None),
        Step::At(b"43", 0, None),
        Step::At(b"999999999999999", LAST, None),
    ],
};
