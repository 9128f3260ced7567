ghost use Rattle.std.specs.Prelude.{◌≡◌, IfOk, false};
ghost use Rattle.clap.specs.Words.{app_of};
ghost use Rattle.clap.specs.declared.builder.command.Command.TheViews.{out-Command};
ghost use Rattle.cli_words.specs.Line.{bare_app, generate_app, line_app};

use clap::{Arg, ArgAction, Command};
use std::alloc::{AllocError, Global};

fn bare<'a>(alloc: Global) -> Command<'a>
    ensures { app_of result ≡ bare_app }
{
    Command::new(alloc, "l2")
        .no_binary_name(true)
        .disable_help_flag(true)
        .disable_help_subcommand(true)
        .subcommand_required(true)
}

fn generate<'a>(alloc: Global) -> Result<Command<'a>, AllocError>
    ensures app { IfOk result (λ c. app_of c ≡ generate_app) }
    ensures local { IfOk result (λ c. (out-Command c).has_globals ≡ false) }
{
    let number = Arg::new(alloc, "number")
        .required(true)
        .action(ArgAction::Set);
    Command::new(alloc, "generate").arg(number)
}

/// The command line as clap reads it: four subcommands, of which `generate` takes a word.
pub(crate) fn line<'a>(alloc: Global) -> Result<Command<'a>, AllocError>
    ensures { IfOk result (λ c. app_of c ≡ line_app) }
{
    bare(alloc)
        .subcommand(Command::new(alloc, "run"))?
        .subcommand(Command::new(alloc, "decode"))?
        .subcommand(Command::new(alloc, "check"))?
        .subcommand(generate(alloc)?)
}
