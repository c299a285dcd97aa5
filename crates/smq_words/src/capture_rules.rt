//! The options of captures.
ghost use Rattle.std.specs.Prelude.{◌≡◌, IfOk, codes};
ghost use Rattle.clap.specs.Words.{app_of};
ghost use Rattle.clap.specs.declared.builder.command.Command.TheViews.{out-Command as fields_of};
ghost use Rattle.smq_words.specs.Words.{IsArgument, captures_rules, file_rule, link_rule, live_rules, option_rule, parts_rule, parts_rules, quiet_rule};
ghost use Rattle.smq_words.specs.Words.{reading_rules, repeated_rule, required_link_rule, strict_rule, with_rules};

use clap::{Arg, ArgAction, Command};
use std::alloc::{AllocError, Global};

/// The subcommand, and the options of the captures that it reads behind rows.
pub fn with_captures<'a>(alloc: Global, command: Command<'a>) -> Result<Command<'a>, AllocError>
    ensures rules { IfOk result (λ made.
        app_of made ≡ with_rules (app_of command.entry) captures_rules) }
    ensures local { IfOk result (λ made.
        (fields_of made).has_globals ≡ (fields_of command.entry).has_globals) }
{
    let named = command.arg(capture_option(alloc))?.arg(link_option(alloc))?;
    with_reading(alloc, named)
}

/// The subcommand, how it reads captures, and whether it tells nothing meanwhile.
pub fn with_reading<'a>(alloc: Global, command: Command<'a>) -> Result<Command<'a>, AllocError>
    ensures rules { IfOk result (λ made.
        app_of made ≡ with_rules (app_of command.entry) reading_rules) }
    ensures local { IfOk result (λ made.
        (fields_of made).has_globals ≡ (fields_of command.entry).has_globals) }
{
    command
        .arg(first_session_option(alloc))?
        .arg(strict_flag(alloc))?
        .arg(quiet_flag(alloc))?
        .arg(index_option(alloc))?
        .arg(losses_option(alloc))
}

/// The subcommand, and what it is asked while packets come.
pub fn with_live<'a>(alloc: Global, command: Command<'a>) -> Result<Command<'a>, AllocError>
    ensures rules { IfOk result (λ made.
        app_of made ≡ with_rules (app_of command.entry) live_rules) }
    ensures local { IfOk result (λ made.
        (fields_of made).has_globals ≡ (fields_of command.entry).has_globals) }
{
    command.arg(every_option(alloc))?.arg(ask_option(alloc))
}

/// The subcommand, and to which scripts rows go.
pub fn with_parts<'a>(alloc: Global, command: Command<'a>) -> Result<Command<'a>, AllocError>
    ensures rules { IfOk result (λ made.
        app_of made ≡ with_rules (app_of command.entry) parts_rules) }
    ensures local { IfOk result (λ made.
        (fields_of made).has_globals ≡ (fields_of command.entry).has_globals) }
{
    command.arg(into_option(alloc))?.arg(by_option(alloc))
}

fn capture_option<'a>(alloc: Global) -> Arg<'a>
    ensures { IsArgument (repeated_rule (codes "capture")) result }
{
    Arg::new(alloc, "capture")
        .long("capture")
        .value_name("FILE")
        .help(
            "A packet capture that is read behind the rows, or - for standard input; may come again",
        )
        .action(ArgAction::Append)
}

fn link_option<'a>(alloc: Global) -> Arg<'a>
    ensures { IsArgument link_rule result }
{
    Arg::new(alloc, "link")
        .long("link")
        .value_name("[HOST:]PORT=LINK")
        .help(
            "A port of the centre, and the number that its link has in the report; may come again",
        )
        .action(ArgAction::Append)
}

pub fn required_link<'a>(alloc: Global) -> Arg<'a>
    ensures { IsArgument required_link_rule result }
{
    link_option(alloc).required(true)
}

fn first_session_option<'a>(alloc: Global) -> Arg<'a>
    ensures { IsArgument (option_rule (codes "first-session")) result }
{
    Arg::new(alloc, "first-session")
        .long("first-session")
        .value_name("N")
        .help("The number of the first session (1)")
        .action(ArgAction::Set)
}

fn strict_flag<'a>(alloc: Global) -> Arg<'a>
    ensures { IsArgument strict_rule result }
{
    Arg::new(alloc, "strict")
        .long("strict")
        .help(
            "Write nothing of a direction after a gap, rather than a new session from the next PDU on",
        )
        .action(ArgAction::SetTrue)
}

pub fn quiet_flag<'a>(alloc: Global) -> Arg<'a>
    ensures { IsArgument quiet_rule result }
{
    Arg::new(alloc, "quiet")
        .long("quiet")
        .help("Tell nothing on a terminal of how far it is")
        .action(ArgAction::SetTrue)
}

fn index_option<'a>(alloc: Global) -> Arg<'a>
    ensures { IsArgument (option_rule (codes "index")) result }
{
    Arg::new(alloc, "index")
        .long("index")
        .value_name("FILE")
        .help(
            "Write a line for each session to FILE: session, link, both ends, first and last packet, 1 for a SYN of both ends, octets missing",
        )
        .action(ArgAction::Set)
}

fn losses_option<'a>(alloc: Global) -> Arg<'a>
    ensures { IsArgument (option_rule (codes "losses")) result }
{
    Arg::new(alloc, "losses")
        .long("losses")
        .value_name("FILE")
        .help(
            "Write a line for each gap to FILE: session, direction, offset, octets missing, moment, why",
        )
        .action(ArgAction::Set)
}

fn every_option<'a>(alloc: Global) -> Arg<'a>
    ensures { IsArgument (option_rule (codes "every")) result }
{
    Arg::new(alloc, "every")
        .long("every")
        .value_name("SECONDS")
        .help("Tell the clock before the first packet of each so many seconds, and ask then")
        .action(ArgAction::Set)
}

fn ask_option<'a>(alloc: Global) -> Arg<'a>
    ensures { IsArgument (repeated_rule (codes "ask")) result }
{
    Arg::new(alloc, "ask")
        .long("ask")
        .value_name("QUESTION")
        .help(
            "What is asked every so many seconds and at the end: a view, a list, report, or count and columns, as 'count link,network'; may come again",
        )
        .action(ArgAction::Append)
}

fn into_option<'a>(alloc: Global) -> Arg<'a>
    ensures { IsArgument (option_rule (codes "into")) result }
{
    Arg::new(alloc, "into")
        .long("into")
        .value_name("FOLDER")
        .help(
            "Write a script for each link and day (or --by) into FOLDER, rather than one to standard output",
        )
        .action(ArgAction::Set)
}

fn by_option<'a>(alloc: Global) -> Arg<'a>
    ensures { IsArgument parts_rule result }
{
    Arg::new(alloc, "parts")
        .long("by")
        .value_name("COLUMNS")
        .help(
            "What --into has a script for each of: link, day, hour (in UTC), link,hour, or link,day (where none is given)",
        )
        .action(ArgAction::Set)
}

pub fn file_argument<'a>(alloc: Global) -> Arg<'a>
    ensures { IsArgument file_rule result }
{
    Arg::new(alloc, "FILE")
        .help("A capture, or - for standard input")
        .action(ArgAction::Append)
}
