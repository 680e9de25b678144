// What the ending of a script has.
ghost use Rattle.std.specs.Prelude.{◌≡◌, ◌<◌, ◌^◌, IfOk};
ghost use Rattle.demo_run.specs.Shown.{Keeps, lines_of};
ghost use Rattle.mem_world.specs.MemDisk.{seen_of};

use checkpoint_journal::peek;
use file_tracker::Row;
use mem_world::MemDisk;
use std::alloc::{AllocError, Global};

// What the checkpoint of a disk keeps: how many files are known, how many lines they gave, and how many bytes these have.
#[derive(Clone, Copy)]
pub(crate) struct Kept {
    pub(crate) files: u64,
    pub(crate) lines: u64,
    pub(crate) output: u64,
}

pub(crate) fn kept_on(alloc: Global, disk: &mut MemDisk) -> Result<Kept, AllocError>
    ensures { IfOk result (λ kept. Keeps kept.files kept.lines kept.output (seen_of disk.old)) }
{
    match peek(alloc, disk) {
        Ok(Some((_, checkpoint))) => {
            let rows = checkpoint.rows.as_slice();
            Ok(Kept {
                files: rows.len() as u64,
                lines: sum_of_lines(rows),
                output: checkpoint.output_length,
            })
        }
        Ok(None) => Ok(Kept {
            files: 0,
            lines: 0,
            output: 0,
        }),
        Err(_) => Err(AllocError),
    }
}

fn sum_of_lines(rows: &[Row]) -> u64
    requires { lines_of rows.now < 2 ^ 64 }
    ensures { result ≡ lines_of rows.now }
{
    let mut lines = 0u64;
    for row in rows {
        lines += row.lines;
    }
    lines
}
