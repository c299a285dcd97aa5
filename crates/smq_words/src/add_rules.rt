//! The arguments of `add`.
ghost use Rattle.smq_words.specs.Words.{IsArgument, periods_rule, reports_rule};

use clap::{Arg, ArgAction};
use std::alloc::Global;

pub fn periods_flag<'a>(alloc: Global) -> Arg<'a>
    ensures { IsArgument periods_rule result }
{
    Arg::new(alloc, "periods")
        .long("periods")
        .help("They are of what deal wrote: a link may stand in many")
        .action(ArgAction::SetTrue)
}

pub fn reports_argument<'a>(alloc: Global) -> Arg<'a>
    ensures { IsArgument reports_rule result }
{
    Arg::new(alloc, "FILE")
        .value_name("REPORT")
        .help("A report as CSV of some of the links")
        .required(true)
        .action(ArgAction::Append)
}
