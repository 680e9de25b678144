// What knows files by their fronts.
use crate::texts::number;
use entry_model::Text;
use file_tracker::{AdmitFault, Bytes, Ends, Row, Tracker};
use std::alloc::{AllocError, Global};

fn row_of(alloc: Global, id: u32, front: &[u8]) -> Result<Row, AllocError> {
    Ok(Row {
        id,
        path: Text::from_str(alloc, "app.log")?,
        front: Bytes::from_slice(alloc, front)?,
        start: 0,
        offset: 0,
        records: 0,
        lines: 0,
        state: Bytes::new(Vec::new(alloc)),
        born: 1,
        ends: Ends::none(alloc),
        seen: 0,
        quiet: 0,
    })
}

/// A tracker with a row for each line of the input, or for each of the ids up to a number, whose front is its id in four bytes.
pub fn tracker_of(alloc: Global, words: &str, input: &[u8]) -> Result<Tracker, AllocError> {
    let mut tracker = Tracker::new(alloc);
    for place in 0..u32::try_from(number(words, 1)).unwrap_or(0) {
        let id = place.saturating_add(1);
        add_row(alloc, &mut tracker, &id.to_be_bytes())?;
    }
    if !input.is_empty() {
        for front in input.split(|byte| *byte == b'\n') {
            add_row(alloc, &mut tracker, front)?;
        }
    }
    Ok(tracker)
}

fn add_row(alloc: Global, tracker: &mut Tracker, front: &[u8]) -> Result<(), AllocError> {
    let id = u32::try_from(tracker.len()).unwrap_or(0).saturating_add(1);
    match tracker.admit(alloc, row_of(alloc, id, front)?) {
        Err(AdmitFault::Memory) => Err(AllocError),
        _ => Ok(()),
    }
}

/// The place of a row more, or why it isn't admitted.
pub fn admit(alloc: Global, tracker: &mut Tracker, front: &[u8]) -> Result<String, AllocError> {
    match tracker.admit(alloc, row_of(alloc, 9_999, front)?) {
        Ok(place) => format!(in alloc; "at {place}"),
        Err(fault) => format!(in alloc; "{fault}"),
    }
}

/// Grows the front of the row at a place, which has to be how the new one begins.
pub fn grow(
    alloc: Global,
    tracker: &mut Tracker,
    words: &str,
    front: &[u8],
) -> Result<String, AllocError> {
    let place = usize::try_from(number(words, 0)).unwrap_or(usize::MAX);
    if place >= tracker.len() || !front.starts_with(tracker.row(place).front.as_slice()) {
        return String::from_str(alloc, "not how it begins");
    }
    tracker.grow_front(alloc, place, front)?;
    match row_at(tracker, place) {
        Some(row) => format!(in alloc; "{:?}", row.front),
        None => String::from_str(alloc, "no row"),
    }
}

fn row_at(tracker: &Tracker, place: usize) -> Option<&Row> {
    if place < tracker.len() {
        Some(tracker.row(place))
    } else {
        None
    }
}

/// Notes that the file of a row was read up to an offset, which may not be below the row's, and the state. Answers whether the
/// row differs from what it was, and the row.
pub fn advance(
    alloc: Global,
    tracker: &mut Tracker,
    words: &str,
    state: &[u8],
) -> Result<String, AllocError> {
    let place = usize::try_from(number(words, 0)).unwrap_or(usize::MAX);
    let offset = number(words, 1);
    if place >= tracker.len() || offset < tracker.row(place).offset {
        return String::from_str(alloc, "not further than before");
    }
    let before = tracker.row(place).copy(alloc)?;
    let same = are_equal(&before, tracker.row(place));
    let state = Vec::from_slice(alloc, state)?;
    tracker.advance(place, offset, before.records, before.lines, state);
    match row_at(tracker, place) {
        Some(row) => advanced(alloc, same, &before, row, tracker.len()),
        None => String::from_str(alloc, "no row"),
    }
}

fn advanced(
    alloc: Global,
    same: bool,
    before: &Row,
    row: &Row,
    rows: usize,
) -> Result<String, AllocError> {
    let changed = !are_equal(before, row);
    format!(in alloc; "copied {same}, changed {changed}, {rows} rows, {row:?}")
}

fn are_equal(one: &Row, other: &Row) -> bool {
    one.id == other.id
        && one.path == other.path
        && one.front == other.front
        && one.start == other.start
        && one.offset == other.offset
        && one.records == other.records
        && one.lines == other.lines
        && one.state == other.state
        && one.born == other.born
        && one.ends.as_slice() == other.ends.as_slice()
        && one.seen == other.seen
        && one.quiet == other.quiet
}

/// Notes the length at which the file of a row was seen, and for how many looks. Answers the row.
pub fn note(alloc: Global, tracker: &mut Tracker, words: &str) -> Result<String, AllocError> {
    let place = usize::try_from(number(words, 0)).unwrap_or(usize::MAX);
    if place >= tracker.len() {
        return String::from_str(alloc, "no row");
    }
    let quiet = u32::try_from(number(words, 2)).unwrap_or(u32::MAX);
    tracker.note(place, number(words, 1), quiet);
    match row_at(tracker, place) {
        Some(row) => format!(in alloc; "{row:?}"),
        None => String::from_str(alloc, "no row"),
    }
}
