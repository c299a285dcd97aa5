//! The words of the program, and what they ask for.
ghost use Rattle.std.specs.Prelude.{◌≡◌, ◌++◌, Bool, Option, Some, IfErr, IfOk, OnOk, map, option_map, string_bytes, unwrap_or, codes};
ghost use Rattle.clap.specs.Words.{Text, first_of, found_of, kind_of, rows_of, subcommand_rows_of};
ghost use Rattle.smq_report.specs.Picks.{pick_name};
ghost use Rattle.smq_words.specs.Words.{Asks, CaptureTexts, CountingTexts, DealingTexts, HasCaptures, HasFlag, HasOrder, IsAsked, TakesWords};
ghost use Rattle.smq_words.specs.Words.{format_name, texts_of, texts_of_captures, texts_of_counting, texts_of_dealing, values_of};
ghost use Rattle.smq_words.specs.within.Tasks.{counting_named, dealing_named, task_named};

use crate::help::{SHORT_USAGE, more_help};
use crate::names::pick_names;
use crate::orders::{Captures, Counting, Dealing, Order, Task};
use crate::rules::{bare_command, command};
use clap::error::ErrorKind;
use clap::{ArgMatches, Error};
use smq_report::{Format, Output, Pick, Query};
use std::alloc::{AllocError, Global};
use std::convert::AsStr;
use std::rt::Env;
use std::{env, io};

/// What the program's words, without its own name, ask for. Where they ask for nothing that it does, the error has
/// `clap`'s text; a request for help or the version is an error of its own kind.
pub fn order<S: AsStr>(alloc: Global, words: &[S]) -> Result<Order, Error>
    ensures words { TakesWords result (map S.text words.now) }
    ensures order { IfOk result (HasOrder (map S.text words.now)) }
{
    let names = pick_names(alloc)?;
    let more = more_help(alloc)?;
    let command = command(alloc, names.as_slice(), more.as_str())?;
    let matches = command.try_get_matches_from(words)?;
    Ok(order_in(alloc, &matches)?)
}

/// What the matches of the words ask for. `clap` takes no words without a subcommand.
fn order_in(alloc: Global, matches: &ArgMatches) -> Result<Order, AllocError>
    ensures { (task : Task) → (path window : Option Text)
        → (counting : CountingTexts) → (dealing : DealingTexts) → (captures : CaptureTexts)
        → Asks (subcommand_rows_of matches.now) task path window counting dealing captures
        → IfOk result (IsAsked (subcommand_rows_of matches.now)) }
{
    match matches.subcommand() {
        Some((name, entered)) => order_of(alloc, name, entered),
        None => Ok(Order {
            task: Task::Check,
            settings: None,
            window: None,
            counting: Counting::none(alloc),
            dealing: Dealing::none(),
            captures: Captures::none(alloc),
        }),
    }
}

/// What the matches of the subcommand of a name ask for.
fn order_of(alloc: Global, name: &str, entered: &ArgMatches) -> Result<Order, AllocError>
    ensures { (task : Task) → (path window : Option Text)
        → (counting : CountingTexts) → (dealing : DealingTexts) → (captures : CaptureTexts)
        → Asks (Some (name.now, rows_of (found_of entered.now))) task path window counting dealing captures
        → IfOk result (IsAsked (Some (name.now, rows_of (found_of entered.now)))) }
{
    let settings = given_text(alloc, entered, "settings")?;
    let window = given_text(alloc, entered, "window")?;
    let counting = counting_of(alloc, name, entered)?;
    let dealing = dealing_of(alloc, name, entered)?;
    let captures = captures_of(alloc, entered)?;
    let task = task_of(name, entered);
    Ok(Order {
        task,
        settings,
        window,
        counting,
        dealing,
        captures,
    })
}

/// The task for which the matches of the subcommand of a name ask.
fn task_of(name: &str, entered: &ArgMatches) -> Task
    ensures { (task : Task) → (path window : Option Text)
        → (counting : CountingTexts) → (dealing : DealingTexts) → (captures : CaptureTexts)
        → Asks (Some (name.now, rows_of (found_of entered.now))) task path window counting dealing captures
        → result ≡ task }
{
    let of_periods = is_given(entered, "periods");
    task_named(name, query_in(entered), of_periods)
}

/// The task of the subcommand of a name, whose arguments ask for this, and of periods or not.
fn task_named(name: &str, query: Query, of_periods: bool) -> Task
    ensures { result ≡ task_named name.now query of_periods }
{
    if name == "check" {
        return Task::Check;
    }
    if name == "follow" {
        return Task::Follow(query.format);
    }
    if name == "count" {
        return Task::Count;
    }
    if name == "messages" {
        return Task::Total(Output::Messages);
    }
    if name == "receipts" {
        return Task::Total(Output::Receipts);
    }
    if name == "total" {
        return Task::Total(Output::Report(query));
    }
    if name == "deal" {
        return Task::Deal;
    }
    if name == "add" {
        return Task::Add { of_periods };
    }
    if name == "capture" {
        return Task::Capture;
    }
    if name == "window" {
        return Task::Window;
    }
    Task::Run(query)
}

/// What the matches of a subcommand ask of a report.
fn query_in(entered: &ArgMatches) -> Query
    ensures pick { (pick : Pick)
        → first_of (codes "NAME") (rows_of (found_of entered.now)) ≡ pick_name pick
        → result.pick ≡ pick }
    ensures format { (format : Format)
        → unwrap_or (first_of (codes "format") (rows_of (found_of entered.now))) (codes "csv")
        ≡ format_name format
        → result.format ≡ format }
{
    Query {
        pick: named_pick(entered.get_str("NAME")),
        format: named_format(entered.get_str("format")),
    }
}

/// What the matches of the subcommand of a name say of counting.
fn counting_of(alloc: Global, name: &str, entered: &ArgMatches) -> Result<Counting, AllocError>
    ensures { IfOk result (λ counting.
        texts_of_counting counting ≡ counting_named name.now (rows_of (found_of entered.now))) }
{
    if name != "count" {
        return Ok(Counting::none(alloc));
    }
    Ok(Counting {
        columns: given_text(alloc, entered, "by")?,
        conditions: given_texts(alloc, entered, "where")?,
        zone: given_text(alloc, entered, "zone")?,
    })
}

/// What the matches of the subcommand of a name say of dealing. The ids of `--parts` and `--into` are `count` and `folder`.
fn dealing_of(alloc: Global, name: &str, entered: &ArgMatches) -> Result<Dealing, AllocError>
    ensures { IfOk result (λ dealing.
        texts_of_dealing dealing ≡ dealing_named name.now (rows_of (found_of entered.now))) }
{
    if name != "deal" {
        return Ok(Dealing::none());
    }
    Ok(Dealing {
        settled: given_text(alloc, entered, "settled")?,
        rest: given_text(alloc, entered, "rest")?,
        parts: given_text(alloc, entered, "count")?,
        into: given_text(alloc, entered, "folder")?,
    })
}

/// What the matches of a subcommand say of captures.
fn captures_of(alloc: Global, entered: &ArgMatches) -> Result<Captures, AllocError>
    ensures { (texts : CaptureTexts) → HasCaptures (rows_of (found_of entered.now)) texts
        → IfOk result (λ captures.
        HasCaptures (rows_of (found_of entered.now)) (texts_of_captures captures)) }
{
    Ok(Captures {
        paths: paths_in(alloc, entered)?,
        links: given_texts(alloc, entered, "link")?,
        first_session: given_text(alloc, entered, "first-session")?,
        index: given_text(alloc, entered, "index")?,
        losses: given_text(alloc, entered, "losses")?,
        every: given_text(alloc, entered, "every")?,
        questions: given_texts(alloc, entered, "ask")?,
        into: given_text(alloc, entered, "into")?,
        by: given_text(alloc, entered, "parts")?,
        is_strict: is_given(entered, "strict"),
        is_quiet: is_given(entered, "quiet"),
    })
}

/// The paths of captures or reports: those of FILE or REPORT, and of `--capture`, of which a subcommand has one.
fn paths_in(alloc: Global, entered: &ArgMatches) -> Result<Vec<String>, AllocError>
    ensures { IfOk result (λ paths. map string_bytes paths.items
        ≡ values_of (codes "FILE") (rows_of (found_of entered.now))
        ++ values_of (codes "capture") (rows_of (found_of entered.now))) }
{
    let mut paths = given_texts(alloc, entered, "FILE")?;
    push_given(alloc, &mut paths, entered, "capture")?;
    Ok(paths)
}

/// All values of an argument, in the order of the words.
fn given_texts(alloc: Global, entered: &ArgMatches, id: &str) -> Result<Vec<String>, AllocError>
    ensures { IfOk result (λ given. map string_bytes given.items
        ≡ values_of id.now (rows_of (found_of entered.now))) }
{
    let mut given = Vec::new(alloc);
    push_given(alloc, &mut given, entered, id)?;
    Ok(given)
}

/// Puts all values of an argument after the texts.
fn push_given(
    alloc: Global,
    texts: &mut Vec<String>,
    entered: &ArgMatches,
    id: &str,
) -> Result<(), AllocError>
    ensures { OnOk result (map string_bytes texts.new.items
        ≡ map string_bytes texts.old.items
        ++ values_of id.now (rows_of (found_of entered.now))) }
{
    match entered.get_strs(id) {
        Some(values) => push_texts(alloc, texts, values),
        None => Ok(()),
    }
}

/// Puts texts after others.
fn push_texts(alloc: Global, texts: &mut Vec<String>, more: &[&str]) -> Result<(), AllocError>
    ensures { OnOk result (map string_bytes texts.new.items
        ≡ map string_bytes texts.old.items ++ texts_of more.now) }
{
    for text in more {
        texts.push(String::from_str(alloc, text)?)?;
    }
    Ok(())
}

/// The first value of an argument, if it has one.
fn given_text(alloc: Global, entered: &ArgMatches, id: &str) -> Result<Option<String>, AllocError>
    ensures { IfOk result (λ given. option_map string_bytes given
        ≡ first_of id.now (rows_of (found_of entered.now))) }
{
    copied_text(alloc, entered.get_str(id))
}

/// A text of its own, where one is given.
fn copied_text(alloc: Global, text: Option<&str>) -> Result<Option<String>, AllocError>
    ensures { IfOk result (λ copied.
        option_map string_bytes copied ≡ option_map (λ text. text.now) text.entry) }
{
    match text {
        Some(text) => Ok(Some(String::from_str(alloc, text)?)),
        None => Ok(None),
    }
}

/// Whether a flag is given.
fn is_given(entered: &ArgMatches, id: &str) -> bool
    ensures { (given : Bool) → HasFlag id.now (rows_of (found_of entered.now)) given
        → result ≡ given }
{
    entered.get_flag(id)
}

/// The pick of a name, and the whole report where none is given. `clap` lets no name through but those of picks.
fn named_pick(name: Option<&str>) -> Pick
    ensures { (pick : Pick) → option_map (λ text. text.now) name.entry ≡ pick_name pick
        → result ≡ pick }
{
    match name {
        Some(text) => Pick::named(text.as_bytes()).unwrap_or(Pick::All),
        None => Pick::All,
    }
}

/// The format of a name, and CSV where none is given. `clap` lets no name through but those of formats.
fn named_format(name: Option<&str>) -> Format
    ensures { (format : Format)
        → unwrap_or (option_map (λ text. text.now) name.entry) (codes "csv") ≡ format_name format
        → result ≡ format }
{
    match name {
        Some(text) => {
            if text == "table" {
                Format::Table
            } else {
                Format::Csv
            }
        }
        None => Format::Csv,
    }
}

/// That words are bad, as `clap` tells it, with this message.
pub fn bad_words(alloc: Global, message: &str) -> Result<Error, Error>
    ensures kind { IfOk result (λ error. kind_of error ≡ ErrorKind.ValueValidation) }
    ensures memory { IfErr result (λ error. kind_of error ≡ ErrorKind.OutOfMemory) }
{
    let mut command = bare_command(alloc, "")?.override_usage(SHORT_USAGE);
    Ok(command.error(ErrorKind::ValueValidation, message)?)
}

/// The program's words, without its own name.
pub fn own_words<R: Env + AllocGlobal>(rt: &R) -> io::Result<Vec<String>> {
    let mut words = Vec::new(rt.alloc());
    for word in env::args(rt)?.skip(1) {
        words.push(word)?;
    }
    Ok(words)
}
