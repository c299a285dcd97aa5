//! Plans of a few versions, with their edits, replies and routes.
use crate::tests::route::{Edit, LAST, Plan, Reply, Step, digits, moment};

pub static PLANS: [Plan; 7] = [
    Plan {
        fact: "a longer prefix holds in its time, and refused edits change nothing",
        steps: &[
            Step::Edit(
                Edit::Add(b"44", 0, 1, b"23410"),
                Reply::Made(&[(b"44", 0, None, 1, b"23410")]),
            ),
            Step::Edit(
                Edit::Add(b"447", 10_000, 2, b"23415"),
                Reply::Made(&[
                    (b"44", 0, None, 1, b"23410"),
                    (b"447", 10_000, None, 2, b"23415"),
                ]),
            ),
            Step::Edit(
                Edit::End(b"447", 10_000, 20_000),
                Reply::Made(&[
                    (b"44", 0, None, 1, b"23410"),
                    (b"447", 10_000, Some(20_000), 2, b"23415"),
                ]),
            ),
            Step::At(b"447700900123", 9_999, Some((1, b"23410"))),
            Step::At(b"447700900123", 10_000, Some((2, b"23415"))),
            Step::At(b"447700900123", 19_999, Some((2, b"23415"))),
            Step::At(b"447700900123", 20_000, Some((1, b"23410"))),
            Step::Edit(
                Edit::Add(b"447", 15_000, 3, b"23415"),
                Reply::Overlap(10_000),
            ),
            Step::Edit(
                Edit::Correct(b"44", 0, 5, b"23433"),
                Reply::Made(&[
                    (b"44", 0, None, 5, b"23433"),
                    (b"447", 10_000, Some(20_000), 2, b"23415"),
                ]),
            ),
            Step::At(b"447700900123", 9_999, Some((5, b"23433"))),
            Step::At(b"447700900123", 10_000, Some((2, b"23415"))),
            Step::Edit(Edit::End(b"44", 1, 2), Reply::NoRoute),
            Step::Edit(Edit::End(b"447", 10_000, 30_000), Reply::Ended(20_000)),
            Step::Edit(Edit::End(b"44", 0, 0), Reply::BadEnd),
            Step::At(b"447700900123", 20_000, Some((5, b"23433"))),
        ],
    },
    Plan {
        fact: "of nested prefixes the longest that begins the number decides",
        steps: &[
            Step::Edit(
                Edit::Add(b"44", 0, 2, b"23402"),
                Reply::Made(&[(b"44", 0, None, 2, b"23402")]),
            ),
            Step::At(b"4", 0, None),
            Step::Edit(
                Edit::Add(b"4477", 0, 4, b"23404"),
                Reply::Made(&[
                    (b"44", 0, None, 2, b"23402"),
                    (b"4477", 0, None, 4, b"23404"),
                ]),
            ),
            Step::Edit(
                Edit::Add(b"4", 0, 1, b"23401"),
                Reply::Made(&[
                    (b"4", 0, None, 1, b"23401"),
                    (b"44", 0, None, 2, b"23402"),
                    (b"4477", 0, None, 4, b"23404"),
                ]),
            ),
            Step::Edit(
                Edit::Add(b"447", 0, 3, b"23403"),
                Reply::Made(&[
                    (b"4", 0, None, 1, b"23401"),
                    (b"44", 0, None, 2, b"23402"),
                    (b"447", 0, None, 3, b"23403"),
                    (b"4477", 0, None, 4, b"23404"),
                ]),
            ),
            Step::At(b"4", 0, Some((1, b"23401"))),
            Step::At(b"43", 0, Some((1, b"23401"))),
            Step::At(b"44", 0, Some((2, b"23402"))),
            Step::At(b"446", 0, Some((2, b"23402"))),
            Step::At(b"447", 0, Some((3, b"23403"))),
            Step::At(b"4476", 0, Some((3, b"23403"))),
            Step::At(b"4477", 0, Some((4, b"23404"))),
            Step::At(b"44770", 0, Some((4, b"23404"))),
            Step::At(b"447700900123456", 0, Some((4, b"23404"))),
            Step::At(b"5", 0, None),
            Step::At(b"54477", 0, None),
        ],
    },
    Plan {
        fact: "versions of a prefix hold from their beginnings up to their ends",
        steps: &[
            Step::Edit(
                Edit::Add(b"49", 100, 1, b"26201"),
                Reply::Made(&[(b"49", 100, None, 1, b"26201")]),
            ),
            Step::Edit(
                Edit::End(b"49", 100, 200),
                Reply::Made(&[(b"49", 100, Some(200), 1, b"26201")]),
            ),
            Step::Edit(
                Edit::Add(b"49", 200, 2, b"26202"),
                Reply::Made(&[
                    (b"49", 100, Some(200), 1, b"26201"),
                    (b"49", 200, None, 2, b"26202"),
                ]),
            ),
            Step::Edit(
                Edit::End(b"49", 200, 300),
                Reply::Made(&[
                    (b"49", 100, Some(200), 1, b"26201"),
                    (b"49", 200, Some(300), 2, b"26202"),
                ]),
            ),
            Step::Edit(
                Edit::Add(b"49", 400, 3, b"26203"),
                Reply::Made(&[
                    (b"49", 100, Some(200), 1, b"26201"),
                    (b"49", 200, Some(300), 2, b"26202"),
                    (b"49", 400, None, 3, b"26203"),
                ]),
            ),
            Step::At(b"4915112345678", 0, None),
            Step::At(b"4915112345678", 99, None),
            Step::At(b"4915112345678", 100, Some((1, b"26201"))),
            Step::At(b"4915112345678", 199, Some((1, b"26201"))),
            Step::At(b"4915112345678", 200, Some((2, b"26202"))),
            Step::At(b"4915112345678", 299, Some((2, b"26202"))),
            Step::At(b"4915112345678", 300, None),
            Step::At(b"4915112345678", 399, None),
            Step::At(b"4915112345678", 400, Some((3, b"26203"))),
            Step::At(b"4915112345678", LAST, Some((3, b"26203"))),
        ],
    },
    Plan {
        fact: "of overlapping versions the least beginning is told",
        steps: &[
            Step::Edit(
                Edit::Add(b"33", 100, 1, b"20801"),
                Reply::Made(&[(b"33", 100, None, 1, b"20801")]),
            ),
            Step::Edit(Edit::Add(b"33", 100, 1, b"20801"), Reply::Overlap(100)),
            Step::Edit(Edit::Add(b"33", 0, 1, b"20801"), Reply::Overlap(100)),
            Step::Edit(Edit::Add(b"33", 101, 1, b"20801"), Reply::Overlap(100)),
            Step::Edit(
                Edit::End(b"33", 100, 200),
                Reply::Made(&[(b"33", 100, Some(200), 1, b"20801")]),
            ),
            Step::Edit(
                Edit::Add(b"33", 300, 2, b"20802"),
                Reply::Made(&[
                    (b"33", 100, Some(200), 1, b"20801"),
                    (b"33", 300, None, 2, b"20802"),
                ]),
            ),
            Step::Edit(Edit::Add(b"33", 0, 3, b"20803"), Reply::Overlap(100)),
            Step::Edit(Edit::Add(b"33", 100, 3, b"20803"), Reply::Overlap(100)),
            Step::Edit(Edit::Add(b"33", 199, 3, b"20803"), Reply::Overlap(100)),
            Step::Edit(Edit::Add(b"33", 200, 3, b"20803"), Reply::Overlap(300)),
            Step::Edit(Edit::Add(b"33", 299, 3, b"20803"), Reply::Overlap(300)),
            Step::Edit(Edit::Add(b"33", 301, 3, b"20803"), Reply::Overlap(300)),
            Step::Edit(Edit::Add(b"33", LAST, 3, b"20803"), Reply::Overlap(300)),
            Step::Edit(
                Edit::Add(b"336", 0, 3, b"20803"),
                Reply::Made(&[
                    (b"33", 100, Some(200), 1, b"20801"),
                    (b"33", 300, None, 2, b"20802"),
                    (b"336", 0, None, 3, b"20803"),
                ]),
            ),
        ],
    },
    Plan {
        fact: "versions are listed by the octets of their prefixes, then by their beginnings",
        steps: &[
            Step::Edit(
                Edit::Add(b"45", 0, 1, b"23801"),
                Reply::Made(&[(b"45", 0, None, 1, b"23801")]),
            ),
            Step::Edit(
                Edit::Add(b"44", 5, 2, b"23410"),
                Reply::Made(&[(b"44", 5, None, 2, b"23410"), (b"45", 0, None, 1, b"23801")]),
            ),
            Step::Edit(
                Edit::End(b"44", 5, 10),
                Reply::Made(&[
                    (b"44", 5, Some(10), 2, b"23410"),
                    (b"45", 0, None, 1, b"23801"),
                ]),
            ),
            Step::Edit(
                Edit::Add(b"447", 0, 3, b"234033"),
                Reply::Made(&[
                    (b"44", 5, Some(10), 2, b"23410"),
                    (b"447", 0, None, 3, b"234033"),
                    (b"45", 0, None, 1, b"23801"),
                ]),
            ),
            Step::Edit(
                Edit::Add(b"44", 10, 4, b"23410"),
                Reply::Made(&[
                    (b"44", 5, Some(10), 2, b"23410"),
                    (b"44", 10, None, 4, b"23410"),
                    (b"447", 0, None, 3, b"234033"),
                    (b"45", 0, None, 1, b"23801"),
                ]),
            ),
            Step::At(b"447", 10, Some((3, b"234033"))),
        ],
    },
    Plan {
        fact: "versions that have ended are corrected, and their dates stay",
        steps: &[
            Step::Edit(Edit::Correct(b"1", 0, 1, b"310410"), Reply::NoRoute),
            Step::Edit(
                Edit::Add(b"1", 5, 1, b"310410"),
                Reply::Made(&[(b"1", 5, None, 1, b"310410")]),
            ),
            Step::Edit(
                Edit::End(b"1", 5, 6),
                Reply::Made(&[(b"1", 5, Some(6), 1, b"310410")]),
            ),
            Step::Edit(Edit::Correct(b"1", 6, 2, b"310260"), Reply::NoRoute),
            Step::Edit(Edit::Correct(b"12", 5, 2, b"310260"), Reply::NoRoute),
            Step::Edit(
                Edit::Correct(b"1", 5, 2, b"310260"),
                Reply::Made(&[(b"1", 5, Some(6), 2, b"310260")]),
            ),
            Step::Edit(Edit::End(b"1", 5, 6), Reply::Ended(6)),
            Step::Edit(Edit::End(b"1", 5, 5), Reply::Ended(6)),
            Step::Edit(Edit::End(b"1", 6, 7), Reply::NoRoute),
            Step::At(b"15551234567", 4, None),
            Step::At(b"15551234567", 5, Some((2, b"310260"))),
            Step::At(b"15551234567", 6, None),
        ],
    },
    Plan {
        fact: "dates go from the first moment to the last, and prefixes up to 15 digits",
        steps: &[
            Step::Edit(
                Edit::Add(b"447700900123456", LAST, 1, b"23410"),
                Reply::Made(&[(b"447700900123456", LAST, None, 1, b"23410")]),
            ),
            Step::Edit(Edit::End(b"447700900123456", LAST, LAST), Reply::BadEnd),
            Step::Edit(
                Edit::Add(b"9", 0, 2, b"40401"),
                Reply::Made(&[
                    (b"447700900123456", LAST, None, 1, b"23410"),
                    (b"9", 0, None, 2, b"40401"),
                ]),
            ),
            Step::Edit(
                Edit::End(b"9", 0, LAST),
                Reply::Made(&[
                    (b"447700900123456", LAST, None, 1, b"23410"),
                    (b"9", 0, Some(LAST), 2, b"40401"),
                ]),
            ),
            Step::At(b"447700900123456", LAST - 1, None),
            Step::At(b"447700900123456", LAST, Some((1, b"23410"))),
            Step::At(b"44770090012345", LAST, None),
            Step::At(b"919876543210", LAST - 1, Some((2, b"40401"))),
            Step::At(b"919876543210", LAST, None),
        ],
    },
];
