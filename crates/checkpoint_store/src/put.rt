// The calls that append a spelling. What they need comes from the allocator of `out`.
ghost use Rattle.std.specs.Prelude.{◌≡◌, ◌++◌, OnOk, length};
ghost use Rattle.std.specs.Int.{w32, to_be_bytes};
ghost use Rattle.std.specs.List.{flat_map};
ghost use Rattle.state_codec.specs.Spelling.{bytes_spelling};
ghost use Rattle.checkpoint_store.specs.Limits.{newest};
ghost use Rattle.checkpoint_store.specs.Parts.{flagged, checkpoint_of_parts, change_of_parts};
ghost use Rattle.checkpoint_store.specs.Rules.{past_of, IsCheckpoint};
ghost use Rattle.checkpoint_store.specs.Spelling.{end_spelling, told_past, row_spelling, rows_spelling, checkpoint_spelling, change_spelling};

use crate::{ChangeParts, CheckpointParts, NEWEST_VERSION};
use file_tracker::{Bytes, End, Row};
use state_codec::{put_bytes, put_text, put_u32, put_u64};
use std::alloc::{AllocError, Global};

fn put_end(alloc: Global, end: &End, out: &mut Vec<u8>) -> Result<(), AllocError>
    ensures { OnOk result (out.new.items ≡ out.old.items ++ end_spelling end.now) }
{
    put_u64(alloc, end.offset, out)?;
    put_u64(alloc, end.records, out)?;
    put_u64(alloc, end.lines, out)
}

fn put_ends(alloc: Global, ends: &[End], out: &mut Vec<u8>) -> Result<(), AllocError>
    ensures { OnOk result (out.new.items ≡ out.old.items ++ (to_be_bytes w32 (length ends.now) ++ flat_map end_spelling ends.now)) }
{
    if ends.len() > 0xFFFF_FFFF {
        return Err(AllocError);
    }
    put_u32(alloc, ends.len() as u32, out)?;
    for end in ends {
        put_end(alloc, end, out)?;
    }
    Ok(())
}

/// What stands behind a row's state.
fn put_past(alloc: Global, row: &Row, out: &mut Vec<u8>) -> Result<(), AllocError>
    ensures { OnOk result (out.new.items ≡ out.old.items ++ told_past (past_of row.now)) }
{
    put_u32(alloc, row.born, out)?;
    put_ends(alloc, row.ends.as_slice(), out)?;
    put_u64(alloc, row.seen, out)?;
    put_u32(alloc, row.quiet, out)
}

/// Appends a row by the newest version.
pub fn put_row(alloc: Global, row: &Row, out: &mut Vec<u8>) -> Result<(), AllocError>
    ensures { OnOk result (out.new.items ≡ out.old.items ++ row_spelling newest row.now) }
{
    put_u32(alloc, row.id, out)?;
    put_text(alloc, &row.path, out)?;
    put_bytes(alloc, row.front.as_slice(), out)?;
    put_u64(alloc, row.start, out)?;
    put_u64(alloc, row.offset, out)?;
    put_u64(alloc, row.records, out)?;
    put_u64(alloc, row.lines, out)?;
    put_bytes(alloc, row.state.as_slice(), out)?;
    put_past(alloc, row, out)
}

fn put_rows(alloc: Global, rows: &[Row], out: &mut Vec<u8>) -> Result<(), AllocError>
    ensures { OnOk result (out.new.items ≡ out.old.items ++ rows_spelling newest rows.now) }
{
    if rows.len() > 0xFFFF_FFFF {
        return Err(AllocError);
    }
    put_u32(alloc, rows.len() as u32, out)?;
    for row in rows {
        put_row(alloc, row, out)?;
    }
    Ok(())
}

fn put_eras(alloc: Global, eras: &[Bytes], out: &mut Vec<u8>) -> Result<(), AllocError>
    ensures { OnOk result (out.new.items ≡ out.old.items ++ (to_be_bytes w32 (length eras.now) ++ flat_map bytes_spelling eras.now)) }
{
    if eras.len() > 0xFFFF_FFFF {
        return Err(AllocError);
    }
    put_u32(alloc, eras.len() as u32, out)?;
    for era in eras {
        put_bytes(alloc, era.as_slice(), out)?;
    }
    Ok(())
}

/// How many rows have their flag set.
fn count_flagged(changed: &[bool], rows: &[Row]) -> usize
    ensures { result ≡ length (flagged changed.now rows.now) }
{
    let all = changed.len().min(rows.len());
    let mut count = 0;
    for place in 0..all {
        if changed[place] {
            count += 1;
        }
    }
    count
}

/// The rows whose flag is set.
fn put_flagged(
    alloc: Global,
    changed: &[bool],
    rows: &[Row],
    out: &mut Vec<u8>,
) -> Result<(), AllocError>
    ensures { OnOk result (out.new.items ≡ out.old.items ++ flat_map (row_spelling newest) (flagged changed.now rows.now)) }
{
    let all = changed.len().min(rows.len());
    for place in 0..all {
        if changed[place] {
            put_row(alloc, &rows[place], out)?;
        }
    }
    Ok(())
}

/// Appends a checkpoint, which has to keep the rules, by the newest version.
pub fn encode(
    alloc: Global,
    checkpoint: &CheckpointParts<'_>,
    out: &mut Vec<u8>,
) -> Result<(), AllocError>
    requires { IsCheckpoint newest (checkpoint_of_parts checkpoint.now) }
    ensures { OnOk result (out.new.items ≡ out.old.items ++ checkpoint_spelling newest (checkpoint_of_parts checkpoint.now)) }
{
    out.extend_from_slice(&[NEWEST_VERSION])?;
    put_eras(alloc, checkpoint.eras.as_slice(), out)?;
    put_u64(alloc, checkpoint.output_length, out)?;
    put_u64(alloc, checkpoint.observed, out)?;
    put_u32(alloc, checkpoint.next_id, out)?;
    put_rows(alloc, checkpoint.rows, out)
}

/// Appends a change under a base of the newest version.
pub fn encode_change(
    alloc: Global,
    change: &ChangeParts<'_>,
    out: &mut Vec<u8>,
) -> Result<(), AllocError>
    ensures { OnOk result (out.new.items ≡ out.old.items ++ change_spelling newest (change_of_parts change.now)) }
{
    let count = count_flagged(change.changed, change.rows);
    if count > 0xFFFF_FFFF {
        return Err(AllocError);
    }
    put_u64(alloc, change.output_length, out)?;
    put_u64(alloc, change.observed, out)?;
    put_u32(alloc, change.next_id, out)?;
    put_u32(alloc, count as u32, out)?;
    put_flagged(alloc, change.changed, change.rows, out)
}
