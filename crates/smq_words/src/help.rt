//! What help says.
use crate::names::{with_lists, with_views};
use smq_tally::{List, View};
use std::alloc::{AllocError, Global};

pub const ABOUT: &str =
    "Tells what became of SMPP 3.4 messages, from captured sessions in a script on standard input";

pub const USAGE: &str =
    "smq capture [OPTIONS] --link <[HOST:]PORT=LINK> [FILE]... > SCRIPT\n       smq report [OPTIONS] < SCRIPT\n       smq query [OPTIONS] <NAME> < SCRIPT\n       smq check [OPTIONS] < SCRIPT\n       smq follow [OPTIONS] < ROWS\n       smq total [OPTIONS] [NAME] < SCRIPT\n       smq count [OPTIONS] --by <COLUMNS> < SCRIPT\n       smq messages [OPTIONS] < SCRIPT\n       smq receipts [OPTIONS] < SCRIPT\n       smq window <LENGTH> < ROWS\n       smq deal [OPTIONS] --settled <DONE> --rest <CARRY> < SCRIPT\n       smq deal [OPTIONS] --parts <K> --into <FOLDER> < SCRIPT\n       smq add [OPTIONS] <REPORT>... > CSV";

/// What is said of usage where words are refused for what they name.
pub const SHORT_USAGE: &str = "smq <SUBCOMMAND> [OPTIONS]";

/// The help of a subcommand: what it does, and how it is called.
#[derive(Clone, Copy)]
pub struct Help<'a> {
    pub about: &'a str,
    pub usage: &'a str,
}

pub const CAPTURE: Help<'static> = Help {
    about: "Writes the script of packet captures: the octets of each TCP stream of their SMPP sessions, as smq reads them",
    usage: "smq capture [OPTIONS] --link <[HOST:]PORT=LINK> [FILE]... > SCRIPT",
};

pub const REPORT: Help<'static> = Help {
    about: "Writes the whole report of a script: all views, then all lists",
    usage: "smq report [OPTIONS] < SCRIPT",
};

pub const QUERY: Help<'static> = Help {
    about: "Writes one view or one list of a script's report",
    usage: "smq query [OPTIONS] <NAME> < SCRIPT",
};

pub const CHECK: Help<'static> = Help {
    about: "Plays a script by many threads on one desk, and says whether its tables equal a count from nothing",
    usage: "smq check [OPTIONS] < SCRIPT",
};

pub const FOLLOW: Help<'static> = Help {
    about: "Plays rows as they come, and writes what is asked among them of the report at that moment",
    usage: "smq follow [OPTIONS] < ROWS",
};

pub const TOTAL: Help<'static> = Help {
    about: "Writes what report or query NAME writes, of a script of any length: no row of it is kept",
    usage: "smq total [OPTIONS] [NAME] < SCRIPT",
};

pub const COUNT: Help<'static> = Help {
    about: "Counts the messages of a script of any length by columns, and writes a line of CSV for each combination that has some",
    usage: "smq count [OPTIONS] --by <COLUMNS> < SCRIPT",
};

pub const MESSAGES: Help<'static> = Help {
    about: "Writes a line of CSV for each message of a script of any length: its route, outcome, id and receipt",
    usage: "smq messages [OPTIONS] < SCRIPT",
};

pub const RECEIPTS: Help<'static> = Help {
    about: "Writes a line of CSV for each delivery receipt of a script of any length, with the message it matches",
    usage: "smq receipts [OPTIONS] < SCRIPT",
};

pub const WINDOW: Help<'static> = Help {
    about: "Writes the rows of the last so many minutes, each session in parts, and withdraws what is older",
    usage: "smq window <LENGTH> < ROWS",
};

pub const DEAL: Help<'static> = Help {
    about: "Deals a script to scripts whose reports add up to its own: what is settled and the rest, or parts by key",
    usage: "smq deal [OPTIONS] --settled <DONE> --rest <CARRY> < SCRIPT\n       smq deal [OPTIONS] --parts <K> --into <FOLDER> < SCRIPT",
};

pub const ADD: Help<'static> = Help {
    about: "Adds reports of scripts that were split by link, or dealt, and writes the report of the whole as CSV",
    usage: "smq add [OPTIONS] <REPORT>... > CSV",
};

/// The first part of what stands below each help, before the names of views and lists.
const SCRIPT: &str = "\
SCRIPT is CSV records, one a line, as `piece,LINK,SESSION,DIR,MOMENT,HEX`, where DIR is client or centre and
MOMENT is in ms since 1970 or YYYY-MM-DDTHH:MM:SSZ. It has at most 1,000,000 records and 268,435,456 octets
(total, count, messages, receipts, deal: any number). ROWS are the same, with `ask,NAME` or `ask,report` among them,
and without a limit; for follow also `ask,count,COLUMN,..`, and `lost,SESSION,DIRECTION,OCTETS` where octets are
missing. `smq window 15m` writes ROWS again, and withdraws what is older than 15 minutes; `smq follow --window 15m`
counts only the rest. A message takes some 2 KB of memory (follow: 5). FORMATS.md among the documents tells all
records, the settings, the report and the lines; the tool check-script says what is wrong with a script.
`--capture FILE` with `--link` reads a packet capture behind the rows of standard input (-: from standard
input, which has no rows then); smq capture --help tells how.
";

/// The last part.
const STATUS: &str = "

Status:
  0  each row was taken
  1  a row was refused and skipped, which all but check tell on standard error, or something is missing
     in captures, which all tell (check: or the tables differ)
  2  bad words, settings or rows: nothing was written (follow: no more than was asked before)
  3  a read or a write failed
  4  out of memory (check: or no thread, or desk refused)";

/// What stands below the help of `capture`.
pub const CAPTURE_MORE: &str = "\
FILE is a pcap or pcapng file, - is standard input, which is read where no file is named; several are taken one
after the other, as one capture. `zcat FILE | smq capture .. -` reads what gzip packed. The end of a connection with a
port that --link names is the centre (SMSC), the other the client (ESME); HOST is an address, an IPv6 one in
brackets. Other connections are skipped. Each connection is a session, numbered in the order in which they begin: with
a SYN and its answer, or with octets. One row stands for each segment that brings new octets:

  piece,LINK,SESSION,DIR,MOMENT,HEX

Of octets that come twice the first copy counts. A segment behind a gap is held back until the gap fills. A gap that
the other end acknowledged 2 s ago, or that is 300 s old, is given up, and so are the oldest where more than 64 MiB
wait: the session ends there, and the next one begins behind it with the first PDU that is seen to begin, and in the
other direction with the first PDU behind all that was captured before.

`--every SECONDS` writes a row `clock,MOMENT` before the first packet of each so many seconds (multiples of them since
1970), and while no packet comes one as the host's clock goes on from the newest packet. After each, and once more at
the end, comes a row for each --ask, a question to smq follow: `ask,NAME`, or `ask,count,COLUMN,..`.

`--into FOLDER` writes each row to the script of its link and day, as FOLDER/2026-11-29/link-1.csv; `--by link` to
FOLDER/link-1.csv, `--by day` to FOLDER/2026-11-29.csv, `--by hour` to FOLDER/2026-11-29T13Z.csv. Folders are made.
Until the captures have ended, `.part` stands behind each name; after a fault it stays. What is there already isn't
written over: the status is 3.

Status:
  0  all that was sent was captured, as far as is seen
  1  something is missing, which standard error tells, or there is no session
  2  bad words, or a file that is no capture
  3  a read or a write failed
  4  out of memory";

/// What stands below the help of `deal`.
pub const DEAL_MORE: &str = "\
No request is parted from its response, and no accepted message or receipt from another of its link that has
its key: these are a group. So each count of SCRIPT's report is the sum of the counts, and each list is as
long as the lists together. `smq add --periods` adds the reports.

With --settled and --rest a group goes to CARRY while it has one of these within its link's window (48 hours
until set) at the last moment that is known. That is the clock, or the last moment of a session where that is
later.

  a request without a response, or a response without a request, of either side
  a message that is open or unasked, for which a receipt may come, or ambiguous, whose receipts may come
  a receipt that is stray, whose message's response may come

So does what ends a direction: octets of a PDU that isn't whole, or a length that can't be. All else is
settled, and goes to DONE. CARRY and the rows of the next period are the script of that one. So each message
is counted in one period, that in which it was settled. After the last one CARRY is reported, too.

DONE has a clock at the last moment that is known, at which what is past its window lapses. CARRY has
SCRIPT's clock. What comes after its group was settled is counted by itself: an id that is used again isn't
ambiguous, and another receipt is stray. So is a response or a receipt that comes later than its window.

With --parts and --into groups go to K scripts by a hash of their link and key, and pairs without a key in
turn. What ends a direction goes to the first.

Each script begins with SCRIPT's rows of forms, windows and routes, so the next period's rows don't repeat
the routes. Report it with the same --settings, which aren't in it. Each PDU is a row, at the moment of its
last octet, in the order of its direction. So places are those of the new script.

The status is 0; 1 where a row was refused; 2 for bad words, rows or settings; else 3. Nothing is written
where it is 2.";

/// What stands below the help of `add`.
pub const ADD_MORE: &str = "\
Each REPORT is what smq wrote as CSV, whole (`report`) or of one view or list (`query NAME`), all of the same,
under the same settings and clock. What is written is octet for octet what smq writes of all their rows in one
script: each count is the sum of the counts, and each list has the places of all. The tool split-script splits a
script so that this holds.

That is so because messages of different links never meet. It isn't where one link's sessions are apart, since its
receipts may come in any of them. So a link that has rows in two reports is told, and a session that has places in
two, and nothing is written. Reports of a view other than `link` don't show it, and no report shows its settings or
clock: look to these yourself.

With --periods a link and a session may stand in many reports, since smq deal cuts no pair and no group of
messages and receipts. The counts are the sums. A place of a dealt script isn't that of the whole, so of each list
only its length is written, as a line `count,NAME,COUNT` behind the views. Such a sum is a report that --periods
adds again, as months to a year.

Status:
  0  the sum was written
  1  the reports can't be added, or a sum of counts is 2^64 or more; nothing was written
  2  bad words, or a file that is no report as CSV, or can't be read
  3  a write failed
  4  out of memory";

/// How many columns a line of names may have.
const COLUMNS: usize = 105;

/// What stands below each help, with the names of views and lists.
pub fn more_help(alloc: Global) -> Result<String, AllocError> {
    let views = with_views(Vec::new(alloc), View::all())?;
    let lists = with_lists(Vec::new(alloc), List::all())?;
    let mut text = String::from_str(alloc, SCRIPT)?;
    push_sentence(&mut text, "Views count messages:", views.as_slice())?;
    push_sentence(&mut text, "Lists have places:", lists.as_slice())?;
    text.push_str(STATUS)?;
    Ok(text)
}

/// Puts a sentence with names after the text, as a paragraph's next lines.
fn push_sentence(text: &mut String, heading: &str, names: &[&str]) -> Result<(), AllocError> {
    text.push('\n')?;
    text.push_str(heading)?;
    let mut room = COLUMNS.saturating_sub(heading.len());
    let mut mark = "";
    for name in names {
        let columns = name.len().saturating_add(2);
        text.push_str(mark)?;
        text.push(if columns > room { '\n' } else { ' ' })?;
        text.push_str(name)?;
        room = if columns > room { COLUMNS } else { room }.saturating_sub(columns);
        mark = ",";
    }
    text.push('.')
}
