// The message itself (RFC 5424, section 6.4).
ghost use Rattle.std.specs.Prelude.{◌≡◌, IfErr, OnOk};
ghost use Rattle.entry_model.specs.Seen.{seen};
ghost use Rattle.syslog_parser.specs.Inner.Reads.{StopsWith, PutsMessage, HasNoEnd};
ghost use Rattle.syslog_parser.specs.Rfc5424.{without_mark as text_without_mark};
ghost use Rattle.syslog_parser.specs.Told.{put_all, told_message};

use crate::cuts::{cut, stands};
use crate::fault::Stop;
use crate::members::put_text;
use entry_model::{FieldsBuilder, Text};
use std::alloc::{AllocError, Global};

/// Puts the message that stands behind a space into the members, without a mark U+FEFF at its front.
pub(crate) fn put_end(alloc: Global, members: &mut FieldsBuilder, text: &str) -> Result<(), Stop>
    ensures ok { OnOk result (PutsMessage text.now (seen members.old.entries) (seen members.new.entries)) }
    ensures fault { IfErr result (StopsWith (HasNoEnd text.now)) }
{
    if text.is_empty() {
        return Ok(());
    }
    if !stands(text, 0, b' ') {
        return Err(Stop::At { left: text.len() });
    }
    let (_, raw) = cut(text, 0);
    put_message(alloc, members, without_mark(raw))?;
    Ok(())
}

/// Puts a message into the members, unless it is empty.
pub(crate) fn put_message(
    alloc: Global,
    members: &mut FieldsBuilder,
    text: &str,
) -> Result<(), AllocError>
    ensures { OnOk result (seen members.new.entries ≡ put_all (seen members.old.entries) (told_message text.now)) }
{
    if text.is_empty() {
        return Ok(());
    }
    put_text(alloc, members, "message", Text::from_str(alloc, text)?)
}

fn without_mark(text: &str) -> &str
    ensures { result.now ≡ text_without_mark text.now }
{
    match text.strip_prefix('\u{feff}') {
        Some(rest) => rest,
        None => text,
    }
}
