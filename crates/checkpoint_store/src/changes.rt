// What a change makes of the checkpoint before it.
ghost use Rattle.std.specs.Prelude.{◌≡◌, ◌-◌, length, nat_le, OnOk, IfOk};
ghost use Rattle.std.specs.List.{filter, fold};
ghost use Rattle.state_codec.specs.Gives.{Gives};
ghost use Rattle.checkpoint_store.specs.Rules.{IsVersion};
ghost use Rattle.checkpoint_store.specs.Reading.{change_at, whole_change};
ghost use Rattle.checkpoint_store.specs.Changed.{with_row};
ghost use Rattle.checkpoint_store.specs.Applied.{Applies};

use crate::read::{read_ascending, read_observed, read_u32_within, read_u64_within};
use crate::{Beside, Change, Checkpoint, OUTPUT_LIMIT, Rows};
use file_tracker::{ROW_LIMIT, Row};
use state_codec::CodecFault;
use state_codec::cursor::Fault;
use std::alloc::{AllocError, Global};

/// How many rows have the id `first` or a later one.
fn since(first: u32, rows: &[Row]) -> usize
    ensures { result ≡ length (filter (λ row. nat_le first row.id) rows.now) }
{
    rows.iter().filter(|row| first <= row.id).count()
}

#[tactic(auto, unfolding(crate::specs::Reading::change_at))]
fn read_change<'a>(
    alloc: Global,
    version: u8,
    before: &Checkpoint,
    bytes: &'a [u8],
) -> Result<(Change, &'a [u8]), Fault>
    ensures { Gives (λ x. (x.0, x.1.now)) result (change_at version before.now bytes.now) }
{
    let next_id = before.next_id;
    let (output_length, rest) = read_u64_within(before.output_length, OUTPUT_LIMIT, bytes)?;
    let (observed, rest) = read_observed(version, before.observed, rest)?;
    let (next, counted) = read_u32_within(next_id as u64, ROW_LIMIT as u64 + 1, rest)?;
    let (count, rest) = read_u32_within(
        next.saturating_sub(next_id) as u64,
        next.saturating_sub(1) as u64,
        counted,
    )?;
    let beside = Beside {
        version,
        eras: before.eras.as_slice().len() as u64,
        output_length,
    };
    let (rows, rest) = read_ascending(alloc, beside, next, count, rest)?;
    if since(next_id, &rows) != next.saturating_sub(next_id) as usize {
        return Err(Fault::Malformed(counted.len()));
    }
    let change = Change {
        output_length,
        observed,
        next_id: next,
        rows: Rows::new(rows),
    };
    Ok((change, rest))
}

#[tactic(auto, unfolding(crate::specs::Reading::whole_change))]
fn read_whole_change(
    alloc: Global,
    version: u8,
    before: &Checkpoint,
    bytes: &[u8],
) -> Result<Change, Fault>
    ensures { Gives (λ c. c) result (whole_change version before.now bytes.now) }
{
    let (change, rest) = read_change(alloc, version, before, bytes)?;
    if !rest.is_empty() {
        return Err(Fault::Malformed(rest.len()));
    }
    Ok(change)
}

/// Puts a row into the place of its id, or behind the last row.
fn put_in(rows: &mut Vec<Row>, row: Row) -> Result<(), AllocError>
    ensures { OnOk result (rows.new.items ≡ with_row rows.old.items row) }
{
    let place = (row.id as usize).saturating_sub(1);
    if place < rows.len() {
        rows[place] = row;
        return Ok(());
    }
    rows.push(row)?;
    Ok(())
}

fn with_rows(rows: Vec<Row>, changes: Vec<Row>) -> Result<Vec<Row>, AllocError>
    ensures { IfOk result (λ r. r.items ≡ fold with_row rows.items changes.items) }
{
    let mut rows = rows;
    for row in changes {
        put_in(&mut rows, row)?;
    }
    Ok(rows)
}

/// The checkpoint that a change makes of the one before it, where the bytes are a change that fits it, all of them.
/// `version` is the first byte of the checkpoint that the changes began from.
///
/// Nothing falls: neither the output length nor the observed time nor the next id. A new id that is missing is told at the
/// count of rows.
pub fn apply(
    alloc: Global,
    version: u8,
    before: Checkpoint,
    bytes: &[u8],
) -> Result<Checkpoint, CodecFault>
    requires { IsVersion version }
    ensures { Applies version before bytes.now result }
{
    let change = match read_whole_change(alloc, version, &before, bytes) {
        Ok(change) => change,
        Err(Fault::Malformed(left)) => {
            return Err(CodecFault::Malformed {
                at: bytes.len().saturating_sub(left),
            });
        }
        Err(Fault::Memory) => return Err(CodecFault::Memory),
    };
    match with_rows(before.rows.into_vec(), change.rows.into_vec()) {
        Ok(rows) => Ok(Checkpoint {
            eras: before.eras,
            output_length: change.output_length,
            observed: change.observed,
            next_id: change.next_id,
            rows: Rows::new(rows),
        }),
        Err(_) => Err(CodecFault::Memory),
    }
}
