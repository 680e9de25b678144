// From words to a command.
ghost use Rattle.std.specs.Prelude.{◌≡◌, List, ℕ, IfOk, Some, codes, string_bytes};
ghost use Rattle.std.specs.List.{list_any};
ghost use Rattle.std.specs.Str.Parse.{starts_with_minus};
ghost use Rattle.clap.specs.Walk.{Row, first_of};
ghost use Rattle.clap.specs.Words.{subcommand_rows_of};
ghost use Rattle.command_words.specs.Answers.{Answers};
ghost use Rattle.command_words.specs.Rounds.{AnswersDemo};
ghost use Rattle.command_words.specs.Words.{texts};

use crate::command::Command;
use crate::program::{ROUNDS, program};
use crate::rounds::rounds_of;
use clap::ArgMatches;
use clap::error::ErrorKind;
use std::alloc::{AllocError, Global};

/// The command that the words after the program's name spell, or none.
///
/// The words are UTF-8. A list in which some word isn't spells no command, so whoever takes the words from the system
/// answers for it as for words that spell none.
pub fn command_of(alloc: Global, words: &[String]) -> Result<Option<Command>, AllocError>
    ensures { IfOk result (Answers (texts words.now)) }
{
    if has_flag(words) {
        return Ok(None);
    }
    match program(alloc)?.try_get_matches_from(words) {
        Ok(matches) => Ok(named(&matches)),
        Err(error) => match error.kind() {
            ErrorKind::OutOfMemory => Err(AllocError),
            _ => Ok(None),
        },
    }
}

fn has_flag(words: &[String]) -> bool
    ensures { result ≡ list_any (λ word. starts_with_minus (string_bytes word)) words.now }
{
    words.iter().any(|word| word.as_str().starts_with('-'))
}

// The command of the subcommand that was found.
fn named(matches: &ArgMatches<'_>) -> Option<Command>
    ensures once { (rows : List Row) → subcommand_rows_of matches.now ≡ Some (codes "once", rows) → result ≡ Some Command.Once }
    ensures follow { (rows : List Row) → subcommand_rows_of matches.now ≡ Some (codes "follow", rows) → result ≡ Some Command.Follow }
    ensures adopt { (rows : List Row) → subcommand_rows_of matches.now ≡ Some (codes "adopt", rows) → result ≡ Some Command.Adopt }
    ensures audit { (rows : List Row) → subcommand_rows_of matches.now ≡ Some (codes "audit", rows) → result ≡ Some Command.Audit }
    ensures committed { (rows : List Row) → subcommand_rows_of matches.now ≡ Some (codes "committed", rows) → result ≡ Some Command.Committed }
    ensures pipe { (rows : List Row) → subcommand_rows_of matches.now ≡ Some (codes "pipe", rows) → result ≡ Some Command.Pipe }
    ensures demo { (rows : List Row) (text : List ℕ) → subcommand_rows_of matches.now ≡ Some (codes "demo", rows)
        → first_of (codes "rounds") rows ≡ Some text → AnswersDemo text result }
{
    let (name, given) = matches.subcommand()?;
    match name {
        "once" => Some(Command::Once),
        "follow" => Some(Command::Follow),
        "adopt" => Some(Command::Adopt),
        "audit" => Some(Command::Audit),
        "committed" => Some(Command::Committed),
        "pipe" => Some(Command::Pipe),
        "demo" => Some(Command::Demo(rounds_of(given.get_str(ROUNDS)?)?)),
        _ => None,
    }
}
