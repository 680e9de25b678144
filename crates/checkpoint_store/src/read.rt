// The readers of rows and checkpoints.
ghost use Rattle.std.specs.Prelude.{◌≡◌, ◌+◌, ◌-◌, ◌≤◌, IfOk};
ghost use Rattle.std.specs.Int.{w32, w64};
ghost use Rattle.state_codec.specs.Gives.{Gives};
ghost use Rattle.checkpoint_store.specs.Decodes.{Decodes};
ghost use Rattle.checkpoint_store.specs.Reading.{number_within, front_at, end_at, ends_at, told_past_at, past_at, row_at, ascending_at, version_at, era_count_at, texts_at, observed_at, checkpoint_at, whole_checkpoint};

use crate::{
    Beside, Checkpoint, ERA_LIMIT, Eras, FRONT_LIMIT, NEWEST_VERSION, OFFSET_LIMIT, OUTPUT_LIMIT,
    Past, Rows,
};
use file_tracker::{Bytes, End, Ends, ROW_LIMIT, Row};
use state_codec::CodecFault;
use state_codec::cursor::Fault;
use state_codec::read::{read_bytes, read_text, read_u32, read_u64};
use std::alloc::Global;

#[tactic(auto, unfolding(crate::specs::Reading::number_within))]
pub fn read_u32_within(low: u64, high: u64, bytes: &[u8]) -> Result<(u32, &[u8]), Fault>
    ensures exact { Gives (λ x. (x.0, x.1.now)) result (number_within w32 low high bytes.now) }
    ensures within { IfOk result (λ x. x.0 ≤ high) }
{
    let (number, rest) = read_u32(bytes)?;
    let value = number as u64;
    if value < low || value > high {
        return Err(Fault::Malformed(bytes.len()));
    }
    Ok((number, rest))
}

#[tactic(auto, unfolding(crate::specs::Reading::number_within))]
pub fn read_u64_within(low: u64, high: u64, bytes: &[u8]) -> Result<(u64, &[u8]), Fault>
    ensures { Gives (λ x. (x.0, x.1.now)) result (number_within w64 low high bytes.now) }
{
    let (number, rest) = read_u64(bytes)?;
    if number < low || number > high {
        return Err(Fault::Malformed(bytes.len()));
    }
    Ok((number, rest))
}

#[tactic(auto, unfolding(crate::specs::Reading::front_at))]
fn read_front(alloc: Global, bytes: &[u8]) -> Result<(Bytes, &[u8]), Fault>
    ensures { Gives (λ x. (x.0, x.1.now)) result (front_at bytes.now) }
{
    read_u32_within(1, FRONT_LIMIT as u64, bytes)?;
    let (front, rest) = read_bytes(alloc, bytes)?;
    Ok((Bytes::new(front), rest))
}

/// An end of which no number is below one point's or above the other's.
#[tactic(auto, unfolding(crate::specs::Reading::end_at))]
fn read_end(from: End, to: End, bytes: &[u8]) -> Result<(End, &[u8]), Fault>
    ensures { Gives (λ x. (x.0, x.1.now)) result (end_at from to bytes.now) }
{
    let (offset, rest) = read_u64_within(from.offset, to.offset, bytes)?;
    let (records, rest) = read_u64_within(from.records, to.records, rest)?;
    let (lines, rest) = read_u64_within(from.lines, to.lines, rest)?;
    let end = End {
        offset,
        records,
        lines,
    };
    Ok((end, rest))
}

fn read_ends(
    alloc: Global,
    from: End,
    to: End,
    count: u32,
    bytes: &[u8],
) -> Result<(Ends, &[u8]), Fault>
    ensures { Gives (λ x. (x.0, x.1.now)) result (ends_at from to count bytes.now) }
{
    let mut ends = Vec::new(alloc);
    let mut last = from;
    let mut rest = bytes;
    for _done in 0..count {
        let (end, after) = read_end(last, to, rest)?;
        ends.push(end)?;
        last = end;
        rest = after;
    }
    Ok((Ends::new(ends), rest))
}

#[tactic(auto, unfolding(crate::specs::Reading::told_past_at))]
fn read_told_past(
    alloc: Global,
    beside: Beside,
    from: End,
    to: End,
    bytes: &[u8],
) -> Result<(Past, &[u8]), Fault>
    ensures { Gives (λ x. (x.0, x.1.now)) result (told_past_at beside from to bytes.now) }
{
    let (born, rest) = read_u32_within(1, beside.eras, bytes)?;
    let left = beside.eras.saturating_sub(born as u64);
    let (count, rest) = read_u32_within(left, left, rest)?;
    let (ends, rest) = read_ends(alloc, from, to, count, rest)?;
    let (seen, rest) = read_u64(rest)?;
    let (quiet, rest) = read_u32(rest)?;
    let past = Past {
        born,
        ends,
        seen,
        quiet,
    };
    Ok((past, rest))
}

/// What stands behind the state of a row whose first part begins at one point and whose last one was read up to the other.
#[tactic(auto, unfolding(crate::specs::Reading::past_at))]
fn read_past(
    alloc: Global,
    beside: Beside,
    from: End,
    to: End,
    bytes: &[u8],
) -> Result<(Past, &[u8]), Fault>
    ensures { Gives (λ x. (x.0, x.1.now)) result (past_at beside from to bytes.now) }
{
    if beside.version < 3 {
        let past = Past {
            born: 1,
            ends: Ends::none(alloc),
            seen: 0,
            quiet: 0,
        };
        return Ok((past, bytes));
    }
    read_told_past(alloc, beside, from, to, bytes)
}

/// A row whose id is between the two.
#[tactic(auto, unfolding(crate::specs::Reading::row_at))]
fn read_row(
    alloc: Global,
    beside: Beside,
    low: u32,
    high: u32,
    bytes: &[u8],
) -> Result<(Row, &[u8]), Fault>
    ensures exact { Gives (λ x. (x.0, x.1.now)) result (row_at beside low high bytes.now) }
    ensures within { IfOk result (λ x. x.0.id ≤ high) }
{
    let (id, rest) = read_u32_within(low as u64, high as u64, bytes)?;
    let (path, rest) = read_text(alloc, rest)?;
    let (front, rest) = read_front(alloc, rest)?;
    let (start, rest) = read_u64_within(0, OFFSET_LIMIT, rest)?;
    let (offset, rest) = read_u64_within(start, OFFSET_LIMIT, rest)?;
    let (records, rest) = read_u64_within(0, offset.saturating_sub(start), rest)?;
    let (lines, rest) = read_u64_within(0, beside.output_length, rest)?;
    let (state, rest) = read_bytes(alloc, rest)?;
    let from = End {
        offset: start,
        records: 0,
        lines: 0,
    };
    let to = End {
        offset,
        records,
        lines,
    };
    let (past, rest) = read_past(alloc, beside, from, to, rest)?;
    let Past {
        born,
        ends,
        seen,
        quiet,
    } = past;
    let row = Row {
        id,
        path,
        front,
        start,
        offset,
        records,
        lines,
        state: Bytes::new(state),
        born,
        ends,
        seen,
        quiet,
    };
    Ok((row, rest))
}

/// So many rows by ascending id, each below `next`, with an id left for each row behind it.
pub fn read_ascending(
    alloc: Global,
    beside: Beside,
    next: u32,
    count: u32,
    bytes: &[u8],
) -> Result<(Vec<Row>, &[u8]), Fault>
    ensures { Gives (λ x. (x.0.items, x.1.now)) result (ascending_at beside 1 (next - 1) count bytes.now) }
{
    let mut rows = Vec::new(alloc);
    let mut rest = bytes;
    let mut low = 1;
    for done in 0..count {
        let left = count - done - 1;
        let high = next.saturating_sub(1).saturating_sub(left);
        let (row, after) = read_row(alloc, beside, low, high, rest)?;
        low = row.id + 1;
        rows.push(row)?;
        rest = after;
    }
    Ok((rows, rest))
}

#[tactic(auto, unfolding(crate::specs::Reading::version_at))]
fn read_version(bytes: &[u8]) -> Result<(u8, &[u8]), Fault>
    ensures { Gives (λ x. (x.0, x.1.now)) result (version_at bytes.now) }
{
    match bytes {
        [] => Err(Fault::Malformed(0)),
        [version, rest @ ..] => {
            if *version < 1 || *version > NEWEST_VERSION {
                return Err(Fault::Malformed(bytes.len()));
            }
            Ok((*version, rest))
        }
    }
}

#[tactic(auto, unfolding(crate::specs::Reading::era_count_at))]
fn read_era_count(version: u8, bytes: &[u8]) -> Result<(u32, &[u8]), Fault>
    ensures { Gives (λ x. (x.0, x.1.now)) result (era_count_at version bytes.now) }
{
    if version < 3 {
        return Ok((1, bytes));
    }
    read_u32_within(1, ERA_LIMIT as u64, bytes)
}

fn read_texts(alloc: Global, count: u32, bytes: &[u8]) -> Result<(Vec<Bytes>, &[u8]), Fault>
    ensures { Gives (λ x. (x.0.items, x.1.now)) result (texts_at count bytes.now) }
{
    let mut texts = Vec::new(alloc);
    let mut rest = bytes;
    for _done in 0..count {
        let (text, after) = read_bytes(alloc, rest)?;
        texts.push(Bytes::new(text))?;
        rest = after;
    }
    Ok((texts, rest))
}

/// A time that is no earlier than this one.
#[tactic(auto, unfolding(crate::specs::Reading::observed_at))]
pub fn read_observed(version: u8, before: u64, bytes: &[u8]) -> Result<(u64, &[u8]), Fault>
    ensures { Gives (λ x. (x.0, x.1.now)) result (observed_at version before bytes.now) }
{
    if version < 2 {
        return Ok((before, bytes));
    }
    read_u64_within(before, u64::MAX, bytes)
}

/// What stands behind the version.
#[tactic(auto, unfolding(crate::specs::Reading::checkpoint_at))]
fn read_checkpoint(alloc: Global, version: u8, bytes: &[u8]) -> Result<(Checkpoint, &[u8]), Fault>
    ensures { Gives (λ x. (x.0, x.1.now)) result (checkpoint_at version bytes.now) }
{
    let (count, rest) = read_era_count(version, bytes)?;
    let (eras, rest) = read_texts(alloc, count, rest)?;
    let (output_length, rest) = read_u64_within(0, OUTPUT_LIMIT, rest)?;
    let (observed, rest) = read_observed(version, 0, rest)?;
    let (next_id, rest) = read_u32_within(1, ROW_LIMIT as u64 + 1, rest)?;
    let last_id = next_id.saturating_sub(1) as u64;
    let (size, rest) = read_u32_within(last_id, last_id, rest)?;
    let beside = Beside {
        version,
        eras: eras.len() as u64,
        output_length,
    };
    let (rows, rest) = read_ascending(alloc, beside, next_id, size, rest)?;
    let checkpoint = Checkpoint {
        eras: Eras::new(eras),
        output_length,
        observed,
        next_id,
        rows: Rows::new(rows),
    };
    Ok((checkpoint, rest))
}

#[tactic(auto, unfolding(crate::specs::Reading::any_checkpoint_at, crate::specs::Reading::whole_checkpoint))]
fn read_whole(alloc: Global, bytes: &[u8]) -> Result<Checkpoint, Fault>
    ensures { Gives (λ c. c) result (whole_checkpoint bytes.now) }
{
    let (version, rest) = read_version(bytes)?;
    let (checkpoint, rest) = read_checkpoint(alloc, version, rest)?;
    if !rest.is_empty() {
        return Err(Fault::Malformed(rest.len()));
    }
    Ok(checkpoint)
}

/// The checkpoint that the bytes are, all of them, by any version.
pub fn decode(alloc: Global, bytes: &[u8]) -> Result<Checkpoint, CodecFault>
    ensures { Decodes bytes.now result }
{
    match read_whole(alloc, bytes) {
        Ok(checkpoint) => Ok(checkpoint),
        Err(Fault::Malformed(left)) => Err(CodecFault::Malformed {
            at: bytes.len().saturating_sub(left),
        }),
        Err(Fault::Memory) => Err(CodecFault::Memory),
    }
}
