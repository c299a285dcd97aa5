//! The rules by which `clap` takes the program's words. Whoever adds a subcommand adds its rules here and in specs/Words.antt, and its help in
//! src/help.rt.
ghost use Rattle.std.specs.Prelude.{◌≡◌, IfOk, Some, codes, false, option_map};
ghost use Rattle.clap.specs.Words.{app_of, new_app, rule_of};
ghost use Rattle.clap.specs.declared.builder.command.Command.TheViews.{out-Command as fields_of};
ghost use Rattle.clap.specs.declared.builder.value_parser.ValueParser.TheVariants.{Names};
ghost use Rattle.smq_report.specs.Picks.{pick_names};
ghost use Rattle.smq_words.specs.Words.{IsArgument, IsProgram, add_app, bare_program, capture_app, count_app, deal_app, first_program, follow_app};
ghost use Rattle.smq_words.specs.Words.{format_names, format_rule, name_rule, named_app, option_rule, optional_rule, options_app, settings_app, settings_rule};
ghost use Rattle.smq_words.specs.Words.{texts_of, version_text, window_app, with_any_length};

use crate::add_rules::{periods_flag, reports_argument};
use crate::capture_rules::{
    file_argument, quiet_flag, required_link, with_captures, with_live, with_parts, with_reading,
};
use crate::count_rules::{columns_option, condition_option};
use crate::deal_rules::with_dealing;
use crate::help::{
    ABOUT, ADD, ADD_MORE, CAPTURE, CAPTURE_MORE, CHECK, COUNT, DEAL, DEAL_MORE, FOLLOW, Help,
    MESSAGES, QUERY, RECEIPTS, REPORT, TOTAL, USAGE, WINDOW,
};
use crate::names::FORMATS;
use crate::window_rules::{length_argument, window_option};
use clap::{Arg, ArgAction, Command};
use std::alloc::{AllocError, Global};

/// The version that `--version` prints.
const VERSION: &str = "0.23.0";

/// The rules of the program's words, where `names` are those of views and lists, and `more` stands below each help but that of `capture`.
pub fn command<'a>(
    alloc: Global,
    names: &'a [&'a str],
    more: &'a str,
) -> Result<Command<'a>, AllocError>
    requires names { texts_of names.now ≡ pick_names }
    ensures { IfOk result (λ command. IsProgram (app_of command)) }
{
    command_with(alloc, names, FORMATS.as_slice(), more)
}

/// The same, where `formats` are the names of formats.
fn command_with<'a>(
    alloc: Global,
    names: &'a [&'a str],
    formats: &'a [&'a str],
    more: &'a str,
) -> Result<Command<'a>, AllocError>
    requires names { texts_of names.now ≡ pick_names }
    requires formats { texts_of formats.now ≡ format_names }
    ensures { IfOk result (λ command. IsProgram (app_of command)) }
{
    let first = first_subcommands(alloc, names, formats, more)?;
    with_any_length(alloc, first, names, formats, more)
}

/// The program with its subcommands up to `follow`.
fn first_subcommands<'a>(
    alloc: Global,
    names: &'a [&'a str],
    formats: &'a [&'a str],
    more: &'a str,
) -> Result<Command<'a>, AllocError>
    ensures { IfOk result (λ command. app_of command
        ≡ first_program (Names names.entry) (Names formats.entry)) }
{
    let capture = capture_command(alloc)?;
    let report = options_command(alloc, "report", REPORT, formats, more)?;
    let query = named_command(
        alloc,
        "query",
        QUERY,
        name_argument(alloc, names),
        formats,
        more,
    )?;
    let check = settings_command(alloc, "check", CHECK, more)?;
    let follow = follow_command(alloc, formats, more)?;
    bare_command(alloc, more)?
        .subcommand(capture)?
        .subcommand(report)?
        .subcommand(query)?
        .subcommand(check)?
        .subcommand(follow)
}

/// The program, and its subcommands that take any number of rows, or reports.
fn with_any_length<'a>(
    alloc: Global,
    command: Command<'a>,
    names: &'a [&'a str],
    formats: &'a [&'a str],
    more: &'a str,
) -> Result<Command<'a>, AllocError>
    ensures { IfOk result (λ made. app_of made
        ≡ with_any_length (Names names.entry) (Names formats.entry) (app_of command.entry)) }
{
    let total = named_command(
        alloc,
        "total",
        TOTAL,
        optional_name(alloc, names),
        formats,
        more,
    )?;
    let count = count_command(alloc, more)?;
    let messages = settings_command(alloc, "messages", MESSAGES, more)?;
    let receipts = settings_command(alloc, "receipts", RECEIPTS, more)?;
    let window = window_command(alloc, more)?;
    let deal = deal_command(alloc)?;
    let add = add_command(alloc)?;
    command
        .subcommand(total)?
        .subcommand(count)?
        .subcommand(messages)?
        .subcommand(receipts)?
        .subcommand(window)?
        .subcommand(deal)?
        .subcommand(add)
}

/// The program without its subcommands.
pub fn bare_command<'a>(alloc: Global, more: &'a str) -> Result<Command<'a>, AllocError>
    ensures rules { IfOk result (λ command. app_of command ≡ bare_program) }
    ensures version { IfOk result (λ command.
        option_map (λ version. version.now) (fields_of command).version ≡ Some version_text) }
{
    let smq = Command::new(alloc, "smq").bin_name("smq")?;
    Ok(
        smq.about(ABOUT)
            .version(VERSION)
            .override_usage(USAGE)
            .after_help(more)
            .no_binary_name(true)
            .subcommand_required(true),
    )
}

/// A subcommand with the option `--settings` and those of captures, and its help.
fn settings_command<'a>(
    alloc: Global,
    name: &'a str,
    help: Help<'a>,
    more: &'a str,
) -> Result<Command<'a>, AllocError>
    ensures rules { IfOk result (λ command. app_of command ≡ settings_app name.entry.now) }
    ensures local { IfOk result (λ command. (fields_of command).has_globals ≡ false) }
{
    let command = subcommand(alloc, name, help, more).arg(settings_option(alloc))?;
    with_captures(alloc, command)
}

/// A subcommand with the options `--format`, `--settings` and those of captures, and its help.
fn options_command<'a>(
    alloc: Global,
    name: &'a str,
    help: Help<'a>,
    formats: &'a [&'a str],
    more: &'a str,
) -> Result<Command<'a>, AllocError>
    ensures rules { IfOk result (λ command.
        app_of command ≡ options_app name.entry.now (Names formats.entry)) }
    ensures local { IfOk result (λ command. (fields_of command).has_globals ≡ false) }
{
    let command = subcommand(alloc, name, help, more)
        .arg(format_option(alloc, formats))?
        .arg(settings_option(alloc))?;
    with_captures(alloc, command)
}

/// A subcommand with a name and the same options, and its help.
fn named_command<'a>(
    alloc: Global,
    name: &'a str,
    help: Help<'a>,
    argument: Arg<'a>,
    formats: &'a [&'a str],
    more: &'a str,
) -> Result<Command<'a>, AllocError>
    requires { argument.global ≡ false }
    ensures rules { IfOk result (λ command.
        app_of command ≡ named_app name.entry.now (rule_of argument.entry) (Names formats.entry)) }
    ensures local { IfOk result (λ command. (fields_of command).has_globals ≡ false) }
{
    let command = subcommand(alloc, name, help, more)
        .arg(argument)?
        .arg(format_option(alloc, formats))?
        .arg(settings_option(alloc))?;
    with_captures(alloc, command)
}

/// The subcommand that plays rows as they come, and its help.
fn follow_command<'a>(
    alloc: Global,
    formats: &'a [&'a str],
    more: &'a str,
) -> Result<Command<'a>, AllocError>
    ensures rules { IfOk result (λ command. app_of command ≡ follow_app (Names formats.entry)) }
    ensures local { IfOk result (λ command. (fields_of command).has_globals ≡ false) }
{
    let rows = options_command(alloc, "follow", FOLLOW, formats, more)?;
    with_live(alloc, rows)?.arg(window_option(alloc))
}

/// The subcommand that counts messages by columns, and its help.
fn count_command<'a>(alloc: Global, more: &'a str) -> Result<Command<'a>, AllocError>
    ensures rules { IfOk result (λ command. app_of command ≡ count_app) }
    ensures local { IfOk result (λ command. (fields_of command).has_globals ≡ false) }
{
    let command = subcommand(alloc, "count", COUNT, more)
        .arg(columns_option(alloc))?
        .arg(condition_option(alloc))?
        .arg(zone_option(alloc))?
        .arg(settings_option(alloc))?;
    with_captures(alloc, command)
}

/// The subcommand that writes the script of captures, and its help.
fn capture_command<'a>(alloc: Global) -> Result<Command<'a>, AllocError>
    ensures rules { IfOk result (λ command. app_of command ≡ capture_app) }
    ensures local { IfOk result (λ command. (fields_of command).has_globals ≡ false) }
{
    let linked = subcommand(alloc, "capture", CAPTURE, CAPTURE_MORE).arg(required_link(alloc))?;
    let read = with_reading(alloc, linked)?;
    let live = with_live(alloc, read)?;
    with_parts(alloc, live)?.arg(file_argument(alloc))
}

/// The subcommand that writes the rows of the last so many minutes, and its help.
fn window_command<'a>(alloc: Global, more: &'a str) -> Result<Command<'a>, AllocError>
    ensures rules { IfOk result (λ command. app_of command ≡ window_app) }
    ensures local { IfOk result (λ command. (fields_of command).has_globals ≡ false) }
{
    subcommand(alloc, "window", WINDOW, more).arg(length_argument(alloc))
}

/// The subcommand that deals a script to others, and its help.
fn deal_command<'a>(alloc: Global) -> Result<Command<'a>, AllocError>
    ensures rules { IfOk result (λ command. app_of command ≡ deal_app) }
    ensures local { IfOk result (λ command. (fields_of command).has_globals ≡ false) }
{
    let dealt = with_dealing(alloc, subcommand(alloc, "deal", DEAL, DEAL_MORE))?;
    dealt.arg(settings_option(alloc))?.arg(quiet_flag(alloc))
}

/// The subcommand that adds reports, and its help.
fn add_command<'a>(alloc: Global) -> Result<Command<'a>, AllocError>
    ensures rules { IfOk result (λ command. app_of command ≡ add_app) }
    ensures local { IfOk result (λ command. (fields_of command).has_globals ≡ false) }
{
    subcommand(alloc, "add", ADD, ADD_MORE)
        .arg(periods_flag(alloc))?
        .arg(reports_argument(alloc))
}

/// A subcommand with no argument yet, and its help.
fn subcommand<'a>(alloc: Global, name: &'a str, help: Help<'a>, more: &'a str) -> Command<'a>
    ensures rules { app_of result ≡ new_app name.entry.now }
    ensures local { (fields_of result).has_globals ≡ false }
{
    Command::new(alloc, name)
        .about(help.about)
        .override_usage(help.usage)
        .after_help(more)
}

fn name_argument<'a>(alloc: Global, names: &'a [&'a str]) -> Arg<'a>
    ensures { IsArgument (name_rule (Names names.entry)) result }
{
    Arg::new(alloc, "NAME")
        .help("The view's or the list's name: counts are in views, places in lists")
        .required(true)
        .action(ArgAction::Set)
        .value_parser(names)
}

fn optional_name<'a>(alloc: Global, names: &'a [&'a str]) -> Arg<'a>
    ensures { IsArgument (optional_rule (Names names.entry)) result }
{
    Arg::new(alloc, "NAME")
        .help("The view's or the list's name; the whole report where none is given")
        .action(ArgAction::Set)
        .value_parser(names)
}

fn format_option<'a>(alloc: Global, formats: &'a [&'a str]) -> Arg<'a>
    ensures { IsArgument (format_rule (Names formats.entry)) result }
{
    Arg::new(alloc, "format")
        .long("format")
        .value_name("FORMAT")
        .help("The report's format, csv where none is given")
        .action(ArgAction::Set)
        .value_parser(formats)
}

fn settings_option<'a>(alloc: Global) -> Arg<'a>
    ensures { IsArgument settings_rule result }
{
    Arg::new(alloc, "settings")
        .long("settings")
        .value_name("PATH")
        .help("A TOML file of settings: the clock, and each link's forms of message ids and window")
        .action(ArgAction::Set)
}

fn zone_option<'a>(alloc: Global) -> Arg<'a>
    ensures { IsArgument (option_rule (codes "zone")) result }
{
    Arg::new(alloc, "zone")
        .long("zone")
        .value_name("PATH")
        .help(
            "A time zone file (TZif), as /usr/share/zoneinfo/Europe/Berlin: minute, hour, day and month are in its local time",
        )
        .action(ArgAction::Set)
}
