// Files that stay as they are.
ghost use Rattle.std.specs.Prelude.{◌≡◌, ◌≤◌, ◌↔◌, true};
ghost use Rattle.idle_flush.specs.Looked.{looked, Flushes};

/// What is remembered of a file from look to look.
#[derive(Clone, Copy, Debug, PartialEq, Eq)]
pub struct Idle {
    /// The size in bytes that the last look found.
    pub seen: u64,
    /// How many looks one after another have found that size while something waited, since the last flush.
    pub quiet: u32,
}

/// What is remembered behind a look that found a file of this size, and whether what waits is flushed: at the look with which so
/// many in a row have found the size that was seen, where something is pending at each.
pub fn look(idle: Idle, size: u64, pending: bool, after: u32) -> (Idle, bool)
    requires { 1 ≤ after }
    ensures is { result ≡ looked idle size pending after }
    ensures flushes { (result.1 ≡ true) ↔ Flushes idle size pending after }
{
    if !pending || size != idle.seen {
        let idle = Idle {
            seen: size,
            quiet: 0,
        };
        return (idle, false);
    }
    if idle.quiet < after - 1 {
        let idle = Idle {
            seen: size,
            quiet: idle.quiet + 1,
        };
        return (idle, false);
    }
    let idle = Idle {
        seen: size,
        quiet: 0,
    };
    (idle, true)
}
