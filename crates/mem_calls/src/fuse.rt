// A fuse, and what becomes of one call.
ghost use Rattle.std.specs.Prelude.{◌≡◌};

/// What becomes of a call.
#[derive(Clone, Copy, PartialEq, Eq)]
pub enum Fate {
    /// It does what it is for.
    Passes,
    /// It fails, and a write or a cut counts as begun.
    Begins,
    /// It fails without effect.
    Fails,
}

impl Fate {
    ghost use Rattle.mem_calls.specs.CallPlans.{failed};

    /// Whether the call fails.
    pub fn fails(self) -> bool
        ensures { result ≡ failed self }
    {
        match self {
            Fate::Passes => false,
            Fate::Begins | Fate::Fails => true,
        }
    }
}

/// A number of calls after which each call fails.
#[derive(Clone, Copy)]
pub struct Fuse {
    /// The calls that still pass.
    pub left: u32,
    /// Whether a call came after those.
    pub reached: bool,
    /// The calls that had succeeded when the fuse was set.
    pub done: usize,
    /// The calls that it let pass from then on.
    pub calls: u32,
}
