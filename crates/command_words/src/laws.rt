//! What the definitions imply.
ghost use Rattle.std.specs.Prelude.{◌≡◌, List, ℕ, Option, true};
ghost use Rattle.std.specs.List.{list_any};
ghost use Rattle.std.specs.Str.Parse.{starts_with_minus};
ghost use Rattle.command_words.specs.Answers.{Answers, IsNoCommand};
ghost use Rattle.command_words.specs.IsCommand.{IsCommand};

use crate::command::Command;

/// No words spell two commands.
pub fn words_spell_one_command()
    ensures { (words : List (List ℕ)) (a b : Command) → IsCommand words a → IsCommand words b → a ≡ b }
{}

/// Words have one answer.
pub fn words_have_one_answer()
    ensures { (words : List (List ℕ)) (a b : Option Command) → Answers words a → Answers words b → a ≡ b }
{}

/// Words of which one begins with `-` spell no command.
pub fn flags_spell_no_command()
    ensures { (words : List (List ℕ)) → list_any starts_with_minus words ≡ true → IsNoCommand words }
{}
