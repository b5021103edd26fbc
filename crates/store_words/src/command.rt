// The commands as `clap` knows them.
ghost use Rattle.std.specs.Prelude.{◌≡◌, IfOk, false};
ghost use Rattle.clap.specs.Words.{app_of, shape_of};
ghost use Rattle.clap.specs.declared.builder.command.Command.TheViews.{out-Command};
ghost use Rattle.store_words.specs.ClapCommands.{command_shape, count_of, program_app};

use crate::verb::Verb;
use clap::builder::ValueRange;
use clap::{Arg, Command};
use std::alloc::{AllocError, Global};

/// How many words stand behind a command's name.
fn count(verb: Verb) -> ValueRange
    ensures { result ≡ count_of verb }
{
    match verb {
        Verb::Run => ValueRange::new(2..=5),
        Verb::Work => ValueRange::new(3..=6),
        Verb::Check | Verb::Export | Verb::Generate => ValueRange::new(2),
        Verb::Trial => ValueRange::new(4),
    }
}

fn command<'a>(alloc: Global, verb: Verb) -> Result<Command<'a>, AllocError>
    ensures shape { IfOk result (λ command. shape_of command ≡ command_shape verb) }
    ensures local { IfOk result (λ command. (out-Command command).has_globals ≡ false) }
{
    let words = Arg::new(alloc, "words")
        .num_args(count(verb))
        .required(true);
    Command::new(alloc, verb.name()).arg(words)
}

/// The program with its commands. It is given the words behind the program's name.
pub(crate) fn program<'a>(alloc: Global) -> Result<Command<'a>, AllocError>
    ensures { IfOk result (λ program. app_of program ≡ program_app) }
{
    Command::new(alloc, "store_main")
        .no_binary_name(true)
        .disable_help_flag(true)
        .disable_help_subcommand(true)
        .subcommand(command(alloc, Verb::Run)?)?
        .subcommand(command(alloc, Verb::Work)?)?
        .subcommand(command(alloc, Verb::Check)?)?
        .subcommand(command(alloc, Verb::Export)?)?
        .subcommand(command(alloc, Verb::Generate)?)?
        .subcommand(command(alloc, Verb::Trial)?)
}
