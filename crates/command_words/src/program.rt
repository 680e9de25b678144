// The command line, as `clap` reads it.
ghost use Rattle.std.specs.Prelude.{◌≡◌, IfOk};
ghost use Rattle.clap.specs.Words.{app_of};
ghost use Rattle.command_words.specs.Program.{bare_program, program};

use clap::{Arg, Command};
use std::alloc::{AllocError, Global};

/// What the argument of `demo` is called.
pub const ROUNDS: &str = "rounds";

/// The agent with its commands.
pub fn program<'a>(alloc: Global) -> Result<Command<'a>, AllocError>
    ensures { IfOk result (λ r. app_of r ≡ program) }
{
    let rounds = Arg::new(alloc, ROUNDS).required(true);
    let demo = Command::new(alloc, "demo").arg(rounds)?;
    bare_program(alloc)
        .subcommand(Command::new(alloc, "once"))?
        .subcommand(Command::new(alloc, "follow"))?
        .subcommand(Command::new(alloc, "adopt"))?
        .subcommand(Command::new(alloc, "audit"))?
        .subcommand(Command::new(alloc, "committed"))?
        .subcommand(Command::new(alloc, "pipe"))?
        .subcommand(demo)
}

// Without any command: all words are the caller's, and one of the commands has to be given.
fn bare_program<'a>(alloc: Global) -> Command<'a>
    ensures { app_of result ≡ bare_program }
{
    Command::new(alloc, "stanza_agent")
        .no_binary_name(true)
        .disable_help_flag(true)
        .disable_help_subcommand(true)
        .subcommand_required(true)
}
