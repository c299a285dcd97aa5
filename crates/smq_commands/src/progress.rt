//! How far it is: a line on a terminal, in place, which is taken away again.
use std::io;
use std::io::{Read, Write};
use std::time::Clock;

/// How far it is is told after so many ms, and then each so many.
const FIRST: u64 = 2_000;

const EACH: u64 = 200;

/// What takes away what stands in the line.
const CLEAR: &str = "\r\x1b[K";

/// What a terminal shows.
#[derive(Clone, Copy)]
pub struct Terminals {
    /// Whether it shows standard error.
    pub errors: bool,
    /// Whether it shows standard output.
    pub output: bool,
}

/// Whether it is told how far a task is, and since when it runs.
#[derive(Clone, Copy)]
pub(crate) struct Progress {
    /// In ms of the host's clock; none where nothing is told.
    begun: Option<u64>,
    /// Whether a terminal shows standard output, too.
    shows_output: bool,
}

impl Progress {
    /// That of a task that begins now, which a terminal shows.
    pub(crate) fn begin<R: Clock>(rt: &R, shows_output: bool) -> Progress {
        Progress {
            begun: now(rt).ok(),
            shows_output,
        }
    }

    /// That of a task of which nothing is told.
    pub(crate) fn none() -> Progress {
        Progress {
            begun: None,
            shows_output: false,
        }
    }

    /// Takes the line away, if one may be there.
    pub(crate) fn take_away<R: Eprint + Clock>(self, rt: &R) {
        let Some(begun) = self.begun else {
            return;
        };
        if now(rt).unwrap_or(begun) >= begun.saturating_add(FIRST) {
            let _ = eprint!(rt; "{CLEAR}");
        }
    }

    /// What tells how far it is.
    pub(crate) fn meter(self) -> Meter {
        Meter {
            next: match self.begun {
                Some(begun) => Some(begun.saturating_add(FIRST)),
                None => None,
            },
        }
    }
}

/// When it is told next how far a task is.
#[derive(Clone, Copy)]
pub(crate) struct Meter {
    /// In ms of the host's clock; none where nothing is told.
    next: Option<u64>,
}

impl Meter {
    /// Whether something is told.
    fn is_told(self) -> bool {
        self.next.is_some()
    }

    /// Tells that there are so many, where it is time to.
    pub(crate) fn tell<R: Eprint + Clock>(&mut self, rt: &R, count: u64, what: &str) {
        let Some(next) = self.next else {
            return;
        };
        let now = now(rt).unwrap_or(0);
        if now >= next {
            let _ = eprint!(rt; "{CLEAR}{count} {what}");
            self.next = Some(now.saturating_add(EACH));
        }
    }
}

/// Rows that are read, of which it is told how many there were.
#[derive(Drop)]
pub(crate) struct CountedRows<'a, R, I> {
    rt: &'a R,
    meter: Meter,
    rows: &'a mut I,
    count: u64,
}

impl<'a, R, I: Read> CountedRows<'a, R, I> {
    /// Rows of which none was read.
    pub(crate) fn new(rt: &'a R, progress: Progress, rows: &'a mut I) -> CountedRows<'a, R, I> {
        CountedRows {
            rt,
            meter: progress.meter(),
            rows,
            count: 0,
        }
    }
}

impl<R: Eprint + Clock, I: Read> Read for CountedRows<'_, R, I> {
    fn read(&mut self, to: &mut [u8]) -> io::Result<usize> {
        let count = self.rows.read(to)?;
        if count > 0 && self.meter.is_told() {
            for octet in to.iter().take(count) {
                if *octet == b'\n' {
                    self.count = self.count.saturating_add(1);
                }
            }
            self.meter.tell(self.rt, self.count, "rows");
        }
        Ok(count)
    }
}

/// Standard output; where a terminal shows it, the line is taken away before something is written.
#[derive(Drop)]
pub(crate) struct StandardOutput<'a, R> {
    rt: &'a R,
    progress: Progress,
}

impl<'a, R> StandardOutput<'a, R> {
    /// Standard output, beside which it may be told how far it is.
    pub(crate) fn new(rt: &'a R, progress: Progress) -> StandardOutput<'a, R> {
        StandardOutput { rt, progress }
    }
}

impl<R: Print + Eprint + Clock> Write for StandardOutput<'_, R> {
    fn write(&mut self, octets: &[u8]) -> io::Result<usize> {
        if self.progress.shows_output {
            self.progress.take_away(self.rt);
        }
        io::writer(self.rt).write(octets)
    }

    fn flush(&mut self) -> io::Result<()> {
        io::writer(self.rt).flush()
    }
}

/// What the host's clock says, in ms since a start of its own.
pub(crate) fn now<R: Clock>(rt: &R) -> io::Result<u64> {
    let now = rt.monotonic()?;
    Ok(
        now.as_secs()
            .saturating_mul(1_000)
            .saturating_add(u64::from(now.subsec_millis())),
    )
}
