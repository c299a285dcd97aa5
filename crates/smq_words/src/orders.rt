//! What the words of the program ask for.
ghost use Rattle.std.specs.Prelude.{◌≡◌};
ghost use Rattle.smq_words.specs.Words.{no_counting, no_dealing, texts_of_counting, texts_of_dealing};

use smq_report::{Format, Output, Query};
use std::alloc::Global;

/// What is done.
#[derive(Clone, Copy, Debug, PartialEq, Eq)]
pub enum Task {
    /// To play a script, and to write what is asked of its report.
    Run(Query),
    /// To play a script on a desk that threads share, and to say whether the desk's tables are those that are counted from nothing.
    Check,
    /// To play rows as they come, and to write what is asked among them, in a format.
    Follow(Format),
    /// To play rows, however many there are, and to write an output of what they leave.
    Total(Output),
    /// To play rows, however many there are, and to count the messages that they leave by columns.
    Count,
    /// To deal a script to scripts whose reports add up to its own.
    Deal,
    /// To add reports as CSV; of periods, a link and a session may stand in many.
    Add { of_periods: bool },
    /// To write the script of packet captures.
    Capture,
    /// To write the rows of the last so many minutes, and to withdraw what is older.
    Window,
}

/// What the words ask for.
#[derive(Debug, Drop)]
pub struct Order {
    /// What is done.
    pub task: Task,
    /// The path of settings, if one is named.
    pub settings: Option<String>,
    /// How long what came is kept; none: for ever.
    pub window: Option<String>,
    /// What `count` counts by; nothing where the task is another.
    pub counting: Counting,
    /// What `deal` writes; nothing where the task is another.
    pub dealing: Dealing,
    /// Which captures are read, and how.
    pub captures: Captures,
}

/// What `count` counts by, as it stands: values as texts.
#[derive(Debug, Drop)]
pub struct Counting {
    /// The value of --by; none where the task is another.
    pub columns: Option<String>,
    /// Each --where.
    pub conditions: Vec<String>,
    /// The path of --zone, if given.
    pub zone: Option<String>,
}

impl Counting {
    /// Nothing.
    pub(crate) fn none(alloc: Global) -> Counting
        ensures { texts_of_counting result ≡ no_counting }
    {
        Counting {
            columns: None,
            conditions: Vec::new(alloc),
            zone: None,
        }
    }
}

/// What `deal` writes, as it stands: values as texts.
#[derive(Debug, Drop)]
pub struct Dealing {
    /// The path of --settled, if given.
    pub settled: Option<String>,
    /// The path of --rest, if given.
    pub rest: Option<String>,
    /// The value of --parts, if given.
    pub parts: Option<String>,
    /// The folder of --into, if given.
    pub into: Option<String>,
}

impl Dealing {
    /// Nothing.
    pub(crate) fn none() -> Dealing
        ensures { texts_of_dealing result ≡ no_dealing }
    {
        Dealing {
            settled: None,
            rest: None,
            parts: None,
            into: None,
        }
    }
}

/// The words of captures and of reports that are added, as they stand: values as texts.
#[derive(Debug, Drop)]
pub struct Captures {
    /// Paths: each FILE of `capture`, each REPORT of `add`, each --capture of the other subcommands.
    pub paths: Vec<String>,
    /// Each --link.
    pub links: Vec<String>,
    /// The value of --first-session, if given.
    pub first_session: Option<String>,
    /// The path of --index, if given.
    pub index: Option<String>,
    /// The path of --losses, if given.
    pub losses: Option<String>,
    /// The value of --every, if given.
    pub every: Option<String>,
    /// Each --ask.
    pub questions: Vec<String>,
    /// The folder of `capture`'s --into, if given.
    pub into: Option<String>,
    /// The --by of `capture`, if given.
    pub by: Option<String>,
    /// Whether --strict is given.
    pub is_strict: bool,
    /// Whether --quiet is given: nothing is told of how far it is.
    pub is_quiet: bool,
}

impl Captures {
    /// No captures.
    pub(crate) fn none(alloc: Global) -> Captures {
        Captures {
            paths: Vec::new(alloc),
            links: Vec::new(alloc),
            first_session: None,
            index: None,
            losses: None,
            every: None,
            questions: Vec::new(alloc),
            into: None,
            by: None,
            is_strict: false,
            is_quiet: false,
        }
    }
}
