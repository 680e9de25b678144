//! The words after a program's name, read as one of the agent's commands.
//!
//! The one contract for the layer above: [`command_of`] answers the command that the words spell by the definition
//! `IsCommand` (in specs/), and none exactly where they spell none. [`laws::words_spell_one_command`] says that no words
//! spell two.
//!
//! The words are read with `clap`, which has a subcommand for each command. A word that begins with `-` is no word of any
//! command, and is refused before `clap` sees it; so there are no flags, and neither help nor a version. Nothing is
//! printed here.
#![tactic(auto)]

mod command;
pub mod laws;
mod program;
mod reading;
mod rounds;

pub use command::{Command, MAX_ROUNDS};
pub use reading::command_of;
