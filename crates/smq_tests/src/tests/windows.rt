//! Windows of links: how long messages wait for their receipts before they lapse.
use crate::tests::scripts::Sent::*;
use crate::tests::scripts::Shown::*;
use crate::tests::scripts::Step::*;
use crate::tests::scripts::*;
use smq_kit::Form;

/// Windows that are set of books with and without messages. `SUBMIT` is of link 1, at 1000.
pub(crate) const WINDOWS: Table = &[
    (
        "a new book has no windows, and a message of any link waits 48 hours",
        &[],
        &[
            Windows(&[]),
            WindowOf(1, 172_800_000),
            WindowOf(u32::MAX, 172_800_000),
        ],
    ),
    (
        "windows are listed by link, and set anew",
        &[
            SetWindow(7, 5),
            SetWindow(u32::MAX, 4_102_444_800_000),
            SetWindow(3, 1),
            SetWindow(7, 6),
        ],
        &[
            Windows(&[(3, 1), (7, 6), (u32::MAX, 4_102_444_800_000)]),
            WindowOf(3, 1),
            WindowOf(7, 6),
            WindowOf(u32::MAX, 4_102_444_800_000),
            WindowOf(1, 172_800_000),
        ],
    ),
    (
        "a message lapses at the end of its link's window",
        &[SUBMIT, RESPONSE, SetWindow(1, 1000), Advance(2000)],
        &[Due(1, 0, 1)],
    ),
    (
        "a greater window opens it again, and that of another link leaves it",
        &[
            SUBMIT,
            RESPONSE,
            SetWindow(1, 1000),
            Advance(2000),
            SetWindow(1, 1001),
            SetWindow(2, 1),
        ],
        &[Due(1, 1, 0), Windows(&[(1, 1001), (2, 1)])],
    ),
    (
        "a window that is set after the clock lapses what its end is past for, as one that is set before it",
        &[Advance(2000), SUBMIT, RESPONSE, SetWindow(1, 1000)],
        &[Due(1, 0, 1)],
    ),
    (
        "each message waits from its own moment on, whatever its session",
        &[
            Client(10, 1000, Submit(1, NUMBER)),
            Client(10, 2000, Submit(2, NUMBER)),
            Client(11, 1500, Submit(1, NUMBER)),
            Client(20, 1000, Submit(1, NUMBER)),
            Centre(10, 3000, Response(1, 0, b"1")),
            Centre(10, 3000, Response(2, 0, b"2")),
            Centre(11, 3000, Response(1, 0, b"3")),
            Centre(20, 3000, Response(1, 0, b"4")),
            Advance(3000),
            SetWindow(1, 1500),
        ],
        &[Due(1, 1, 2), Due(2, 1, 0)],
    ),
    (
        "clocks look at each link by its own window",
        &[
            SetWindow(1, 2000),
            SetWindow(2, 500),
            Client(10, 1000, Submit(1, NUMBER)),
            Client(20, 1000, Submit(1, NUMBER)),
            Client(20, 1700, Submit(2, NUMBER)),
            Centre(10, 3000, Response(1, 0, b"1")),
            Centre(20, 3000, Response(1, 0, b"1")),
            Centre(20, 3000, Response(2, 0, b"2")),
            Advance(1499),
            Advance(1500),
        ],
        &[Due(1, 1, 0), Due(2, 1, 1)],
    ),
    (
        "a withdrawal leaves the window, as it leaves the forms",
        &[
            SUBMIT,
            RESPONSE,
            Forms(Form::Decimal, Form::Decimal),
            SetWindow(1, 1000),
            Withdraw(10),
            Advance(2000),
            SUBMIT,
            RESPONSE,
        ],
        &[Windows(&[(1, 1000)]), Due(1, 0, 1)],
    ),
    (
        "forms, routes and clocks leave windows",
        &[
            SetWindow(1, 1000),
            Forms(Form::Decimal, Form::Hexadecimal),
            Route(b"44", 0, 1, b"23410"),
            Advance(5),
        ],
        &[Windows(&[(1, 1000)])],
    ),
];
