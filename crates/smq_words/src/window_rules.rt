//! How long what came is kept.
ghost use Rattle.std.specs.Prelude.{codes};
ghost use Rattle.smq_words.specs.Words.{IsArgument, length_rule, option_rule};

use clap::{Arg, ArgAction};
use std::alloc::Global;

pub fn window_option<'a>(alloc: Global) -> Arg<'a>
    ensures { IsArgument (option_rule (codes "window")) result }
{
    Arg::new(alloc, "window")
        .long("window")
        .value_name("LENGTH")
        .help("Keep only what came in the last so many minutes, as 15m, 6h or 90s")
        .action(ArgAction::Set)
}

pub fn length_argument<'a>(alloc: Global) -> Arg<'a>
    ensures { IsArgument length_rule result }
{
    Arg::new(alloc, "window")
        .value_name("LENGTH")
        .help("How long a row is kept, as 15m, 6h or 90s")
        .required(true)
        .action(ArgAction::Set)
}
