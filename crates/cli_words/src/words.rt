ghost use Rattle.std.specs.Prelude.{◌≡◌, ◌++◌, ◌∷◌, [], IfOk, OnErr, OnOk, map, string_bytes, true};
ghost use Rattle.std.specs.List.{list_all};
ghost use Rattle.cli_words.specs.Commands.{command_of};
ghost use Rattle.cli_words.specs.Line.{are_plain, is_plain};

use crate::Command;
use crate::command::command_in;
use crate::line::line;
use clap::error::ErrorKind;
use l2_bits::NoMemory;
use std::alloc::Global;
use std::marker::Model;

/// The words of a command line, without the program's name.
#[derive(Drop)]
pub struct Words {
    alloc: Global,
    words: Vec<String>,
}

impl Model for Words {
    ghost use Rattle.std.specs.Prelude.{List, ℕ, map, string_bytes};

    ghost Value = { List (List ℕ) };

    ghost view = { λ w. map string_bytes w.words.items };
}

// A word that clap can't take for an option.
fn is_plain(word: &str) -> bool
    ensures { result ≡ is_plain word.now }
{
    match word.as_bytes() {
        [] => false,
        [first, ..] => *first != b'-',
    }
}

fn are_plain(words: &[String]) -> bool
    ensures { result ≡ list_all (λ word. is_plain (string_bytes word)) words.now }
{
    words.iter().all(|word| is_plain(word.as_str()))
}

// The command of words that clap can't take for options.
fn command_of_plain(alloc: Global, words: &[String]) -> Result<Option<Command>, NoMemory>
    requires { are_plain (map string_bytes words.now) ≡ true }
    ensures { IfOk result (λ command. command ≡ command_of (map string_bytes words.now)) }
{
    let line = line(alloc)?;
    match line.try_get_matches_from(words) {
        Ok(matches) => Ok(command_in(&matches)),
        Err(error) => {
            if error.kind() == ErrorKind::OutOfMemory {
                return Err(NoMemory);
            }
            Ok(None)
        }
    }
}

impl Words {
    /// No words yet.
    pub fn new(alloc: Global) -> Words
        ensures { result ≡ [] }
    {
        Words {
            alloc,
            words: Vec::new(alloc),
        }
    }

    /// Adds a word behind the others. An `Err` changes nothing.
    pub fn push(&mut self, word: &str) -> Result<(), NoMemory>
        ensures ok { OnOk result (self.new ≡ self.old ++ word.now ∷ []) }
        ensures err { OnErr result (self.new ≡ self.old) }
    {
        let word = String::from_str(self.alloc, word)?;
        self.words.push(word)?;
        Ok(())
    }

    /// The command that the words are; `None` where they are none.
    pub fn command(&self) -> Result<Option<Command>, NoMemory>
        ensures { IfOk result (λ command. command ≡ command_of self.now) }
    {
        let words = self.words.as_slice();
        if are_plain(words) {
            command_of_plain(self.alloc, words)
        } else {
            Ok(None)
        }
    }
}
