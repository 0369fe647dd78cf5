// The words after a subcommand.
ghost use Rattle.flash_program.specs.Program.{HasRule, image_rule, number_rule, seed_rule, sessions_rule};

use clap::{Arg, value_parser};
use std::alloc::Global;

/// The word for the image.
pub(crate) fn image<'a>(alloc: Global) -> Arg<'a>
    ensures { HasRule image_rule result }
{
    Arg::new(alloc, "IMAGE")
        .required(true)
        .help("The image file")
}

/// An option with a number of 32 bits.
pub(crate) fn number<'a>(alloc: Global, name: &'a str, default: &'a str, help: &'a str) -> Arg<'a>
    ensures { HasRule (number_rule name.entry.now default.entry.now) result }
{
    Arg::new(alloc, name)
        .long(name)
        .value_name("N")
        .value_parser(value_parser!(u32))
        .default_value(default)
        .help(help)
}

/// The option with the seed.
pub(crate) fn seed<'a>(alloc: Global) -> Arg<'a>
    ensures { HasRule seed_rule result }
{
    Arg::new(alloc, "seed")
        .long("seed")
        .value_name("N")
        .value_parser(value_parser!(u64))
        .default_value("1")
        .help("The seed of the random cuts: the same seed gives the same cuts")
}

/// The option with the number of sessions.
pub(crate) fn sessions<'a>(alloc: Global) -> Arg<'a>
    ensures { HasRule sessions_rule result }
{
    Arg::new(alloc, "sessions")
        .long("sessions")
        .value_name("N")
        .value_parser(value_parser!(u32).range(1..=1000))
        .default_value("10")
        .help("How many sessions, 1 to 1000")
}
