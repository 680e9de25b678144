// How many bytes spellings by the newest version take, so that memory for them can be asked for at once.
ghost use Rattle.std.specs.Prelude.{◌≡◌, ◌+◌, ◌*◌, ◌<◌, ◌≤◌, ◌^◌, length};
ghost use Rattle.std.specs.List.{flat_map};
ghost use Rattle.checkpoint_store.specs.Limits.{newest};
ghost use Rattle.checkpoint_store.specs.Parts.{flagged, checkpoint_of_parts, change_of_parts};
ghost use Rattle.checkpoint_store.specs.Rules.{IsCheckpoint};
ghost use Rattle.checkpoint_store.specs.Spelling.{row_spelling, checkpoint_spelling, change_spelling};

use crate::{ChangeParts, CheckpointParts};
use file_tracker::Row;

fn row_size(row: &Row) -> u64
    requires { 68 + length row.now.path + length row.now.front + length row.now.state + 24 * length row.now.ends < 2 ^ 64 }
    ensures { result ≡ length (row_spelling newest row.now) }
{
    let texts = row.path.len() + row.front.as_slice().len() + row.state.as_slice().len();
    let ends = 24 * row.ends.as_slice().len();
    68 + (texts + ends) as u64
}

// How many bytes the rows take whose flag is set.
fn flagged_size(changed: &[bool], rows: &[Row]) -> u64
    requires { length (flat_map (row_spelling newest) (flagged changed.now rows.now)) < 2 ^ 64 }
    ensures { result ≡ length (flat_map (row_spelling newest) (flagged changed.now rows.now)) }
{
    let all = changed.len().min(rows.len());
    let mut size = 0;
    for place in 0..all {
        if changed[place] {
            size += row_size(&rows[place]);
        }
    }
    size
}

/// How many bytes [`encode`](crate::encode) appends.
pub fn checkpoint_size(checkpoint: &CheckpointParts<'_>) -> u64
    requires { IsCheckpoint newest (checkpoint_of_parts checkpoint.now) }
    ensures is { result ≡ length (checkpoint_spelling newest (checkpoint_of_parts checkpoint.now)) }
    ensures short { result ≤ 2 ^ 52 }
{
    let mut size = 29;
    for text in checkpoint.eras.as_slice() {
        size += 4 + text.as_slice().len() as u64;
    }
    for row in checkpoint.rows {
        size += row_size(row);
    }
    size
}

/// How many bytes [`encode_change`](crate::encode_change) appends.
pub fn change_size(change: &ChangeParts<'_>) -> u64
    requires { length (change_spelling newest (change_of_parts change.now)) < 2 ^ 64 }
    ensures { result ≡ length (change_spelling newest (change_of_parts change.now)) }
{
    24 + flagged_size(change.changed, change.rows)
}
