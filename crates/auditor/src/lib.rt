//! Whether what is kept of a file is what its bytes give, found out by another way than the one that made it.
//!
//! Whole texts and whole lists: the tokens of each part are cut by the definition, their entries go through the operators node by
//! node (`whole_runs`), and each item that comes out is one line, which is compared with the file's next kept one (`kept_lines`).
//! What is held in memory at a time are the entries of one part and the items of the whole file.
//!
//! **The contract for the layer above.** [`audit_row`] answers `Same` exactly where the row is as these bytes and these lines say
//! (`RowHolds`); else it names the first line that differs, or the one past all.
#![tactic(auto)]

ghost use Rattle.std.specs.Prelude.{◌≡◌, ◌+◌, ◌<◌, ◌^◌, ℕ, [], ◌++◌, List, length, map, IfOk};
ghost use Rattle.auditor.specs.KeepsOrder.{KeepsOrder};
ghost use Rattle.auditor.specs.RowHolds.{AreErasFrom};
ghost use Rattle.auditor.specs.Verdicts.{IsSaid, IsVerdict};
ghost use Rattle.pipeline.specs.AsRules.{rules_of};
ghost use Rattle.standing.specs.Eras.{Eras};

mod compared;
mod entries;
mod gathered;
pub mod laws;
mod parts;
mod tokens;

use crate::compared::agreed_lines;
use crate::gathered::gather;
use file_tracker::Row;
use kept_lines::lines_of;
use pipeline::Pipeline;
use std::alloc::{AllocError, Global};

/// What was found of a row.
#[derive(Clone, Copy, Debug, PartialEq, Eq)]
pub enum Verdict {
    Same,
    /// The number of the first of the file's lines that differs or of which only one is there; where there is none, one more
    /// than there are lines.
    Differs { line: u64 },
}

/// Audits a row: `pipes` are the pipelines of its eras, from the one under which it was admitted to the last; `bytes` are its
/// file's from where reading began; `kept` has its lines, with or without those of other files. Of 2^62 bytes or more there is
/// no memory for the entries.
pub fn audit_row(
    alloc: Global,
    pipes: &[Pipeline],
    row: &Row,
    bytes: &[u8],
    kept: &[u8],
) -> Result<Verdict, AllocError>
    requires parts { length pipes.now ≡ length row.now.ends + 1 }
    requires order { KeepsOrder row.now }
    ensures { IfOk result (λ verdict. (eras : Eras) (before : List ℕ) → AreErasFrom eras row.now.born pipes.now → length before ≡ row.now.start
        → IsVerdict eras (map (rules_of []) pipes.now) (before ++ bytes.now) row.now kept.now verdict) }
{
    if bytes.len() >= 1 << 62 {
        return Err(AllocError);
    }
    let own = lines_of(alloc, row.id, kept)?;
    let found = gather(alloc, pipes, row, bytes)?;
    let agreed = agreed_lines(alloc, row.id, &found.items, &own)?;
    Ok(said(found.is_whole, agreed, found.items.len(), own.len()))
}

/// The verdict on a row of which so many lines agree, where so many are asked for and so many are there.
fn said(is_whole: bool, agreed: usize, asked: usize, there: usize) -> Verdict
    requires { agreed + 1 < 2 ^ 64 }
    ensures { IsSaid is_whole agreed asked there result }
{
    if is_whole && agreed == asked && agreed == there {
        return Verdict::Same;
    }
    Verdict::Differs {
        line: agreed as u64 + 1,
    }
}
