// The commands.

/// The most rounds that `demo` plays.
pub const MAX_ROUNDS: u16 = 1000;

/// What the agent is told to do.
#[derive(Clone, Copy, Debug, PartialEq, Eq)]
pub enum Command {
    /// `once`: one poll.
    Once,
    /// `follow`: a poll whenever the control input asks for one.
    Follow,
    /// `adopt`: lets the settings file follow the settings that are kept.
    Adopt,
    /// `audit`: tells whether the lines that are kept are those that the files give.
    Audit,
    /// `committed`: tells how much of the output is kept.
    Committed,
    /// `pipe`: prints the lines of the control input.
    Pipe,
    /// `demo` and a number: plays so many rounds in memory, from 1 to [`MAX_ROUNDS`].
    Demo(u16),
}
