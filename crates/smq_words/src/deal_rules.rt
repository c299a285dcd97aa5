//! The options of `deal`.
ghost use Rattle.std.specs.Prelude.{◌≡◌, IfOk, codes};
ghost use Rattle.clap.specs.Words.{app_of};
ghost use Rattle.clap.specs.declared.builder.command.Command.TheViews.{out-Command as fields_of};
ghost use Rattle.smq_words.specs.Words.{IsArgument, count_rule, dealing_rules, folder_rule, option_rule, with_rules};

use clap::{Arg, ArgAction, Command};
use std::alloc::{AllocError, Global};

/// The subcommand, and the scripts that it writes.
pub fn with_dealing<'a>(alloc: Global, command: Command<'a>) -> Result<Command<'a>, AllocError>
    ensures rules { IfOk result (λ made.
        app_of made ≡ with_rules (app_of command.entry) dealing_rules) }
    ensures local { IfOk result (λ made.
        (fields_of made).has_globals ≡ (fields_of command.entry).has_globals) }
{
    command
        .arg(settled_option(alloc))?
        .arg(rest_option(alloc))?
        .arg(count_option(alloc))?
        .arg(folder_option(alloc))
}

fn settled_option<'a>(alloc: Global) -> Arg<'a>
    ensures { IsArgument (option_rule (codes "settled")) result }
{
    Arg::new(alloc, "settled")
        .long("settled")
        .value_name("DONE")
        .help("Write what is settled to DONE")
        .action(ArgAction::Set)
}

fn rest_option<'a>(alloc: Global) -> Arg<'a>
    ensures { IsArgument (option_rule (codes "rest")) result }
{
    Arg::new(alloc, "rest")
        .long("rest")
        .value_name("CARRY")
        .help("Write what isn't settled to CARRY, with which the next period's script begins")
        .action(ArgAction::Set)
}

fn count_option<'a>(alloc: Global) -> Arg<'a>
    ensures { IsArgument count_rule result }
{
    Arg::new(alloc, "count")
        .long("parts")
        .value_name("K")
        .help("Deal by key into so many scripts, from 1 to 9999")
        .action(ArgAction::Set)
}

fn folder_option<'a>(alloc: Global) -> Arg<'a>
    ensures { IsArgument folder_rule result }
{
    Arg::new(alloc, "folder")
        .long("into")
        .value_name("FOLDER")
        .help("Write part-1.csv and so on into FOLDER, which is made where it isn't there")
        .action(ArgAction::Set)
}
