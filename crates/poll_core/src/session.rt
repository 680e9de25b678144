// What the agent remembers.
ghost use Rattle.std.specs.Prelude.{◌≡◌};
ghost use Rattle.poll_core.specs.SessionParts.{last_text};

use checkpoint_journal::Journal;
use checkpoint_store::Eras;
use file_tracker::Tracker;
use pipeline::Pipeline;

/// What the agent remembers of its files and its output, and with what it goes on.
#[derive(Drop)]
pub struct Session {
    pub(crate) pipeline: Pipeline,
    /// The settings that were in force, the first ones first, byte for byte. The pipeline is of the last ones.
    pub(crate) eras: Eras,
    /// The greatest length of the output, in bytes.
    pub(crate) limit: u64,
    /// None exactly before the first poll where no checkpoint stood.
    pub(crate) journal: Option<Journal>,
    /// How many bytes of the output are kept.
    pub(crate) kept: u64,
    /// The greatest time of a line that is kept, in nanoseconds since 1970.
    pub(crate) observed: u64,
    /// The time of the next poll, in nanoseconds since 1970.
    pub(crate) time: u64,
    /// The files that are known. The next id is that of a row behind them.
    pub(crate) tracker: Tracker,
}

/// The settings that are in force.
pub(crate) fn last_text(eras: &Eras) -> &[u8]
    ensures { result.now ≡ last_text eras.now }
{
    match eras.as_slice().last() {
        Some(text) => text.as_slice(),
        None => &[],
    }
}

impl Session {
    ghost use Rattle.poll_core.specs.IsSession.{IsSession};
    ghost use Rattle.poll_core.specs.SessionParts.{kept_of, session_at};

    /// How many bytes of the output are kept.
    pub fn kept(&self) -> u64
        ensures { result ≡ kept_of self.now }
    {
        self.kept
    }

    /// Makes the time of the next polls the greater of what it is and `now`, in nanoseconds since 1970. Where the settings ask
    /// for it, the lines that a poll makes have its time. So no line has an earlier one than a line before it, also where the
    /// machine's clock is put back.
    pub fn at(&mut self, now: u64)
        ensures session { IsSession self.old → IsSession self.new }
        ensures time { self.new ≡ session_at self.old now }
    {
        self.time = self.time.max(now);
    }
}
