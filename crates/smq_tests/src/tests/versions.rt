//! Edits of dated routes, and the versions that they leave.
use crate::tests::scripts::Sent::*;
use crate::tests::scripts::Shown::*;
use crate::tests::scripts::Step::*;
use crate::tests::scripts::*;
use smq_kit::Form;

/// Edits of routes on books with and without messages.
pub(crate) const VERSIONS: Table = &[
    (
        "a new book has no versions and gives no number a route",
        &[],
        &[Versions(&[]), RouteAt(NUMBER, 0, None)],
    ),
    (
        "versions are listed by their prefixes, then by their beginnings",
        &[
            Route(b"9", 0, 9, b"310410"),
            Route(b"44", 5000, 2, b"23415"),
            Route(b"447", 0, 3, b"23420"),
            Correct(b"44", 5000, 4, b"23430"),
            End(b"447", 0, 1),
            Route(b"447", 1, 5, b"23433"),
        ],
        &[Versions(&[
            (b"44", 5000, None, 4, b"23430"),
            (b"447", 0, Some(1), 3, b"23420"),
            (b"447", 1, None, 5, b"23433"),
            (b"9", 0, None, 9, b"310410"),
        ])],
    ),
    (
        "a number has the route of its longest prefix, while that holds",
        &[
            Route(b"44", 0, 1, b"23410"),
            Route(b"447", 10_000, 2, b"23415"),
            End(b"447", 10_000, 20_000),
        ],
        &[
            Versions(&[
                (b"44", 0, None, 1, b"23410"),
                (b"447", 10_000, Some(20_000), 2, b"23415"),
            ]),
            RouteAt(NUMBER, 9999, Some((1, b"23410"))),
            RouteAt(NUMBER, 10_000, Some((2, b"23415"))),
            RouteAt(NUMBER, 19_999, Some((2, b"23415"))),
            RouteAt(NUMBER, 20_000, Some((1, b"23410"))),
            RouteAt(b"4", 10_000, None),
        ],
    ),
    (
        "a prefix has a version from the end of another on, and each is ended and corrected alone",
        &[
            Route(b"44", 0, 1, b"23410"),
            Route(b"447", 10_000, 2, b"23415"),
            End(b"447", 10_000, 20_000),
            SUBMIT,
            RESPONSE,
            Route(b"447", 20_000, 3, b"23415"),
            End(b"44", 0, 1),
            Correct(b"447", 10_000, 6, b"23433"),
        ],
        &[Versions(&[
            (b"44", 0, Some(1), 1, b"23410"),
            (b"447", 10_000, Some(20_000), 6, b"23433"),
            (b"447", 20_000, None, 3, b"23415"),
        ])],
    ),
    (
        "withdrawals and forms leave versions, and edits of routes leave octets",
        &[
            Forms(Form::Decimal, Form::Decimal),
            Route(b"44", 0, 1, b"23410"),
            Client(11, 1000, Submit(1, NUMBER)),
            Correct(b"44", 0, 2, b"23415"),
            End(b"44", 0, 3000),
            Withdraw(11),
            Forms(Form::Verbatim, Form::Verbatim),
            SUBMIT,
        ],
        &[
            Versions(&[(b"44", 0, Some(3000), 2, b"23415")]),
            Session((1, 1, 0, 49, 1, 1000)),
        ],
    ),
];
