ghost use Rattle.std.specs.Prelude.{◌≡◌};
ghost use Rattle.clap.specs.Words.{found_of, rows_of, subcommand_rows_of};
ghost use Rattle.cli_words.specs.Commands.{number_in};
ghost use Rattle.cli_words.specs.Line.{command_at, command_in, generate_in};

use clap::ArgMatches;

/// A command of the program.
#[derive(Clone, Copy, Debug, PartialEq, Eq)]
pub enum Command {
    /// Plays a script.
    Run,
    /// Shows blocks.
    Decode,
    /// Judges a journal.
    Check,
    /// Plays the script that is made from a number.
    Generate {
        /// The number.
        number: u32,
    },
}

// The number that a word writes, as `u32` reads it.
#[tactic(auto, using(crate::proofs::Numbers::number_read))]
fn number_in(word: &str) -> Option<u32>
    ensures { result ≡ number_in word.now }
{
    word.parse::<u32>().ok()
}

// The command of the subcommand `generate`.
#[tactic(auto, using(crate::proofs::Numbers::number_value))]
fn generate_in(values: &ArgMatches<'_>) -> Option<Command>
    ensures { result ≡ generate_in (rows_of (found_of values.now)) }
{
    let number = number_in(values.get_str("number")?)?;
    Some(Command::Generate { number })
}

fn command_at(name: &str, values: &ArgMatches<'_>) -> Option<Command>
    ensures { result ≡ command_at name.now (rows_of (found_of values.now)) }
{
    match name {
        "run" => Some(Command::Run),
        "decode" => Some(Command::Decode),
        "check" => Some(Command::Check),
        _ => generate_in(values),
    }
}

/// The command that clap found.
pub(crate) fn command_in(matches: &ArgMatches<'_>) -> Option<Command>
    ensures { result ≡ command_in (subcommand_rows_of matches.now) }
{
    let (name, values) = matches.subcommand()?;
    command_at(name, values)
}
