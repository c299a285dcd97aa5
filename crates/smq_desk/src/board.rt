//! The board of a desk: what was published last, which watchers read without the desk's lock.
//!
//! The rule of the board, which each of its steps keeps: what is on it begins with what each side knows. A side is the writer, which
//! stands behind the lock, or a watcher's reader; it knows what it published or read last.
ghost use Rattle.std.specs.Prelude.{◌≡◌, [], true, false, IfOk};
ghost use Rattle.std.specs.Arc.{arc_value};
ghost use Rattle.left_right.specs.Sides.{view};
ghost use Rattle.smq_desk.specs.History.{StartsWith};
ghost use Rattle.smq_desk.specs.within.Boards.{shown_in, Keeps, Sees, Looked};

use crate::published_history::{PublishedHistory, Shown};
use crate::{Edition, Entry};
use core::mem::replace_with;
use crossbeam_utils::rule::{Outcome, Protocol};
use left_right::reader::Reader;
use left_right::writer::Writer;
use std::alloc::{AllocError, Global};
use std::collections::LinkedList;
use std::sync::{Arc, Wait};

/// How many watchers a board has a place for.
pub const MOST_WATCHERS: usize = 64;

/// What a side of the board knows: the entries that it published or read last. No value of it is made.
pub(crate) struct Known {
    pub(crate) entries: LinkedList<Entry>,
}

/// The rule of the board.
pub(crate) struct BeginsWithWhatIsKnown;

impl Protocol<Shown, Known> for BeginsWithWhatIsKnown {
    ghost holds = { Keeps };

    ghost first = { record { entries = [] } };
}

/// A look at the board, or a change of it.
pub(crate) struct Looks;

impl Outcome<Shown, Known> for Looks {
    ghost then = { Sees };
}

pub(crate) type BoardReader = Reader<Shown, Known, BeginsWithWhatIsKnown>;

pub(crate) type BoardWriter = Writer<Shown, Arc<PublishedHistory>, Known, BeginsWithWhatIsKnown>;

/// A board on which this is published first.
pub(crate) fn open_board(
    alloc: Global,
    first: Arc<PublishedHistory>,
) -> Result<BoardWriter, AllocError>
    ensures { IfOk result (λ board. shown_in board.desk.shown.value ≡ arc_value first) }
{
    let second = Arc::try_clone(&first)?;
    let (first, second) = (Shown { published: first }, Shown { published: second });
    Writer::new(alloc, first, second, MOST_WATCHERS)
}

/// Puts a history on the board in place of the one that it begins with. Where there is no memory for it (false), the board stays.
fn put_on<R: Wait>(
    rt: &R,
    mut board: BoardWriter,
    published: Arc<PublishedHistory>,
) -> (BoardWriter, bool)
    requires { StartsWith (arc_value published) (shown_in board.desk.shown.value) }
    ensures put { (result.1 ≡ true) → shown_in result.0.desk.shown.value ≡ arc_value published }
    ensures stays { (result.1 ≡ false)
        → shown_in result.0.desk.shown.value ≡ shown_in board.desk.shown.value }
{
    let Ok(()) = board.append(published) else {
        return (board, false);
    };
    let (board, answer) = board.publish_as::<Looks, R>(rt);
    (board, answer.is_ok())
}

/// The same on a board that is lent.
pub(crate) fn publish_on<R: Wait>(
    rt: &R,
    board: &mut BoardWriter,
    published: Arc<PublishedHistory>,
) -> bool
    requires { StartsWith (arc_value published) (shown_in board.old.desk.shown.value) }
    ensures put { (result ≡ true) → shown_in board.new.desk.shown.value ≡ arc_value published }
    ensures stays { (result ≡ false)
        → shown_in board.new.desk.shown.value ≡ shown_in board.old.desk.shown.value }
{
    replace_with(
        board,
        published,
        |board, published| put_on(rt, board, published),
    )
}

/// What a look at the board finds.
#[derive(Drop)]
pub(crate) enum Found {
    There(Edition),
    /// The board was taken down.
    Gone,
    NoMemory,
}

/// Reads the board once.
pub(crate) fn look(reader: BoardReader) -> (BoardReader, Found)
    ensures { Looked (view reader.place).entries (view result.0.place).entries result.1 }
{
    match reader.enter_as::<Looks>() {
        Ok(reading) => {
            let found = match Arc::try_clone(&reading.get().published) {
                Ok(published) => Found::There(Edition::of(published)),
                Err(_) => Found::NoMemory,
            };
            (reading.leave(), found)
        }
        Err(reader) => (reader, Found::Gone),
    }
}
