// Checkpoints and changes.
ghost use Rattle.checkpoint_store.specs.Rules.{IsVersion};

use crate::texts::{add_line, hexadecimal, number, one_line};
use checkpoint_store::laws::older_checkpoints_are_newest;
use checkpoint_store::{
    ChangeParts, Checkpoint, Eras, NEWEST_VERSION, Rows, apply, decode, encode, encode_change,
};
use entry_model::Text;
use file_tracker::{Bytes, End, Ends, Row};
use std::alloc::{AllocError, Global};

/// The checkpoint that bytes are, and its spelling.
pub fn checkpoint(alloc: Global, bytes: &[u8]) -> Result<String, AllocError> {
    older_checkpoints_are_newest();
    let checkpoint = match decode(alloc, bytes) {
        Ok(checkpoint) => checkpoint,
        Err(fault) => return format!(in alloc; "{fault}"),
    };
    let mut again = Vec::new(alloc);
    encode(alloc, &checkpoint.parts(), &mut again)?;
    text_and_spelling(alloc, &checkpoint, &again)
}

fn text_and_spelling(
    alloc: Global,
    checkpoint: &Checkpoint,
    spelling: &[u8],
) -> Result<String, AllocError> {
    let mut text = checkpoint_text(alloc, checkpoint)?;
    let digits = hexadecimal(alloc, spelling)?;
    add_line(&mut text, digits.as_str())?;
    Ok(text)
}

/// The bases of changes: the versions, each with the settings texts that its base has and with its observed time.
#[derive(Clone, Copy)]
pub enum Base {
    First,
    Second,
    Third,
}

impl Base {
    fn version(self) -> u8
        ensures { IsVersion result }
    {
        match self {
            Base::First => 1,
            Base::Second => 2,
            Base::Third => NEWEST_VERSION,
        }
    }

    // Version 1 has no time.
    fn observed(self) -> u64 {
        match self {
            Base::First => 0,
            Base::Second | Base::Third => 5,
        }
    }

    // Version 3 alone has several texts.
    fn eras(self) -> &'static [&'static str] {
        match self {
            Base::First | Base::Second => &["{}"],
            Base::Third => &["{}", "[]"],
        }
    }
}

/// What a change makes of a checkpoint with one row.
pub fn change(alloc: Global, base: Base, bytes: &[u8]) -> Result<String, AllocError> {
    match apply(alloc, base.version(), checkpoint_of(alloc, base, 1)?, bytes) {
        Ok(after) => checkpoint_text(alloc, &after),
        Err(fault) => format!(in alloc; "{fault}"),
    }
}

fn checkpoint_text(alloc: Global, checkpoint: &Checkpoint) -> Result<String, AllocError> {
    let mut text = String::from_str(alloc, "eras")?;
    for era in checkpoint.eras.as_slice() {
        let settings = one_line(alloc, era.as_slice())?;
        write!(text, " [{settings}]")?;
    }
    write!(text, " output {}", checkpoint.output_length)?;
    write!(text, " observed {}", checkpoint.observed)?;
    write!(text, " next {}", checkpoint.next_id)?;
    for row in checkpoint.rows.as_slice() {
        write!(text, "\n{row:?}")?;
    }
    Ok(text)
}

fn row_of(alloc: Global, id: u32, offset: u64, parts: usize) -> Result<Row, AllocError> {
    Ok(Row {
        id,
        path: Text::from_str(alloc, "a")?,
        front: Bytes::from_slice(alloc, b"b")?,
        start: 0,
        offset,
        records: 0,
        lines: 0,
        state: Bytes::from_slice(alloc, &[])?,
        born: 1,
        ends: ends_of(alloc, parts)?,
        seen: 0,
        quiet: 0,
    })
}

// The ends of so many parts, of which all but the last have no bytes.
fn ends_of(alloc: Global, parts: usize) -> Result<Ends, AllocError> {
    let mut ends = Ends::none(alloc);
    for _ in 1..parts {
        ends.push(End {
            offset: 0,
            records: 0,
            lines: 0,
        })?;
    }
    Ok(ends)
}

// A checkpoint with so many rows, the one with id k at offset k.
fn checkpoint_of(alloc: Global, base: Base, rows: u32) -> Result<Checkpoint, AllocError> {
    let mut held = Vec::new(alloc);
    for place in 0..rows {
        let id = place.saturating_add(1);
        held.push(row_of(alloc, id, u64::from(id), base.eras().len())?)?;
    }
    Ok(Checkpoint {
        eras: eras_of(alloc, base.eras())?,
        output_length: 9,
        observed: base.observed(),
        next_id: rows.saturating_add(1),
        rows: Rows::new(held),
    })
}

fn eras_of(alloc: Global, texts: &[&str]) -> Result<Eras, AllocError> {
    let mut eras = Vec::new(alloc);
    for text in texts {
        eras.push(Bytes::from_slice(alloc, text.as_bytes())?)?;
    }
    Ok(Eras::new(eras))
}

/// The offsets that so many rows have, once those with the ids of the input are changed to offset 100. The second word is the
/// next id.
pub fn offsets(alloc: Global, words: &str, ids: &str) -> Result<String, AllocError> {
    let change = spelled(alloc, u32::try_from(number(words, 1)).unwrap_or(0), ids)?;
    let rows = u32::try_from(number(words, 0)).unwrap_or(0);
    let before = checkpoint_of(alloc, Base::Third, rows)?;
    match apply(alloc, NEWEST_VERSION, before, &change) {
        Ok(after) => offsets_of(alloc, &after),
        Err(fault) => format!(in alloc; "{fault}"),
    }
}

/// The spelling of the change of the rows with the ids of the input to offset 100. The word is the next id.
pub fn spell_change(alloc: Global, words: &str, ids: &str) -> Result<String, AllocError> {
    let change = spelled(alloc, u32::try_from(number(words, 0)).unwrap_or(0), ids)?;
    hexadecimal(alloc, &change)
}

// The bytes of a change of the rows with these ids.
fn spelled(alloc: Global, next_id: u32, ids: &str) -> Result<Vec<u8>, AllocError> {
    let mut rows = Vec::new(alloc);
    for word in ids.split_whitespace() {
        let id = word.parse::<u32>().unwrap_or(0);
        rows.push(row_of(alloc, id, 100, Base::Third.eras().len())?)?;
    }
    let changed = vec![in alloc; true; rows.len()]?;
    let change = ChangeParts {
        output_length: 10,
        observed: 6,
        next_id,
        rows: rows.as_slice(),
        changed: changed.as_slice(),
    };
    let mut bytes = Vec::new(alloc);
    encode_change(alloc, &change, &mut bytes)?;
    Ok(bytes)
}

fn offsets_of(alloc: Global, checkpoint: &Checkpoint) -> Result<String, AllocError> {
    let mut found = String::from_str(alloc, "offsets")?;
    for row in checkpoint.rows.as_slice() {
        write!(found, " {}", row.offset)?;
    }
    Ok(found)
}
