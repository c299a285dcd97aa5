//! The options of `count`.
ghost use Rattle.std.specs.Prelude.{codes};
ghost use Rattle.smq_words.specs.Words.{IsArgument, columns_rule, repeated_rule};

use clap::{Arg, ArgAction};
use std::alloc::Global;

pub fn columns_option<'a>(alloc: Global) -> Arg<'a>
    ensures { IsArgument columns_rule result }
{
    Arg::new(alloc, "by")
        .long("by")
        .value_name("COLUMNS")
        .help(
            "Columns, with commas between: link, session, route, network, outcome, error, link-delay, centre-delay, minute, hour, day, month (of the message's moment, in UTC or by --zone), source, ton (the address that it comes from, and the type of its number), prefix:N (the first N digits of its number)",
        )
        .required(true)
        .action(ArgAction::Set)
}

pub fn condition_option<'a>(alloc: Global) -> Arg<'a>
    ensures { IsArgument (repeated_rule (codes "where")) result }
{
    Arg::new(alloc, "where")
        .long("where")
        .value_name("COLUMN=VALUE")
        .help("Counts only messages that have this value in this column; several: that have all")
        .action(ArgAction::Append)
}
