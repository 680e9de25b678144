//! The real outside: the machine's folders and files, standard input and standard output, and its clock.
//!
//! These adapters are the trusted edge of the product. They tell nothing of contents, so what is proved of them is that
//! a fault comes only where the count of faults rose. `real_tests` tries each of them on the machine's own files.
#![tactic(auto)]

ghost use Rattle.std.specs.Prelude.{◌≡◌, ◌≤◌, Ok, IfOk};
ghost use Rattle.outside.specs.Count.{HasCause, HasOneCause};

mod clock;
mod control;
mod disk;
mod own_file;
mod parts;
mod report;
mod tree;

pub use clock::RealClock;
pub use control::RealSource;
pub use disk::RealDisk;
use outside::{CallFault, Failed};
pub use parts::RealParts;
pub use report::RealSink;
use std::io;
use std::io::ErrorKind;
pub use tree::RealTree;

/// How often a call is tried that a signal interrupts.
const TRIES: u32 = 1000;

// Nothing has the name, or something on the way to it is no folder.
fn is_missing(error: &io::Error) -> bool {
    matches!(error.kind(), ErrorKind::NotFound | ErrorKind::NotADirectory)
}

// Counts a call that failed, also where it wanted memory.
fn counted<T: Drop>(faults: &mut u64, given: io::Result<T>) -> Result<T, Failed>
    ensures value { IfOk result (λ value. given ≡ Ok value) }
    ensures cause { HasOneCause result faults.old faults.new }
    ensures in_range { faults.new ≤ 18446744073709551615 }
{
    // Once the count is read, the prover knows its range.
    let _count = *faults;
    match given {
        Ok(value) => Ok(value),
        Err(_) => {
            *faults = faults.saturating_add(1);
            Err(Failed)
        }
    }
}

// Counts a call that failed for another reason than a want of memory.
fn counted_call<T: Drop>(faults: &mut u64, given: io::Result<T>) -> Result<T, CallFault>
    ensures value { IfOk result (λ value. given ≡ Ok value) }
    ensures cause { HasCause result faults.old faults.new }
    ensures in_range { faults.new ≤ 18446744073709551615 }
{
    let _count = *faults;
    match given {
        Ok(value) => Ok(value),
        Err(e) if e.kind() == ErrorKind::OutOfMemory => Err(CallFault::Memory),
        Err(_) => {
            *faults = faults.saturating_add(1);
            Err(CallFault::Failed)
        }
    }
}
