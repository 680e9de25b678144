// The tokens of a part.
ghost use Rattle.std.specs.Prelude.{◌≡◌, ◌+◌, ◌<◌, ◌^◌, ℕ, List, ◌++◌, length, IfOk, OnOk};
ghost use Rattle.auditor.specs.Inner.Taken.{IsNextWithin, AreTaken, cuts_taken};
ghost use Rattle.field_paths.specs.MapOf.{members_seen};
ghost use Rattle.pipeline.specs.Entries.{file_attributes, records_of, text_of};
ghost use Rattle.pipeline.specs.Parts.{settings_of};
ghost use Rattle.pipeline.specs.Tokens.{first_cut_of};

use crate::entries::{entry_of, file_attributes};
use entry_model::Fields;
use line_splitter::Token;
use op_kinds::Record;
use pipeline::Pipeline;
use settings_text::Settings;
use std::alloc::{AllocError, Global};

/// What the tokens of some bytes gave.
#[derive(Drop)]
pub(crate) struct Taken {
    pub(crate) entries: Vec<Record>,
    /// How many tokens there were, those without an entry too.
    pub(crate) count: u64,
    /// How many bytes they used.
    pub(crate) used: u64,
}

/// The first token of the bytes, where it ends within `room` bytes.
fn next_within(
    alloc: Global,
    pipe: &Pipeline,
    bytes: &[u8],
    room: u64,
) -> Result<Option<Token>, AllocError>
    ensures { IfOk result (IsNextWithin (first_cut_of (settings_of pipe.now)) bytes.now room) }
{
    let Some(token) = pipe.first_token(alloc, bytes)? else {
        return Ok(None);
    };
    if token.after as u64 > room {
        return Ok(None);
    }
    Ok(Some(token))
}

/// Adds the entry of the token with this number, where it has one.
fn add_entry(
    alloc: Global,
    settings: &Settings,
    shared: &Fields,
    number: u64,
    token: &[u8],
    entries: &mut Vec<Record>,
) -> Result<(), AllocError>
    requires { number < 2 ^ 63 }
    ensures { OnOk result ((path : List ℕ) → members_seen shared.now.entries ≡ file_attributes settings.now path
        → entries.new.items ≡ entries.old.items ++ records_of settings.now path number (text_of settings.now token.now)) }
{
    let Some(entry) = entry_of(alloc, settings, shared, number, token)? else {
        return Ok(());
    };
    entries.push(entry)?;
    Ok(())
}

/// The tokens of the bytes that end within the first `room` of them, as entries; `before` tokens of the file stand before them.
pub(crate) fn take_tokens(
    alloc: Global,
    pipe: &Pipeline,
    path: &str,
    before: u64,
    bytes: &[u8],
    room: u64,
) -> Result<Taken, AllocError>
    requires { before + length bytes.now < 2 ^ 63 }
    ensures { IfOk result (AreTaken (settings_of pipe.now) path.now before (cuts_taken (settings_of pipe.now) room bytes.now)) }
{
    let settings = pipe.settings();
    let shared = file_attributes(alloc, settings, path)?;
    let mut entries = Vec::new(alloc);
    let mut count = 0;
    let mut at = 0;
    'taking: while let Some(token) = next_within(alloc, pipe, &bytes[at..], room - at as u64)? {
        count += 1;
        let text = &bytes[at..][token.from..token.to];
        add_entry(alloc, settings, &shared, before + count, text, &mut entries)?;
        at += token.after;
    }
    Ok(Taken {
        entries,
        count,
        used: at as u64,
    })
}
