// Messages of RFC 3164.
ghost use Rattle.std.specs.Prelude.{◌≡◌, IfOk, IfErr, OnOk, option_map};
ghost use Rattle.entry_model.specs.Seen.{seen};
ghost use Rattle.syslog_parser.specs.Faults.{Tells3164, IsFault3164};
ghost use Rattle.syslog_parser.specs.Inner.Senders.{tail_of};
ghost use Rattle.syslog_parser.specs.Told.{meaning_of, put_all, told_process, told_sender};

use crate::members::put_text;
use crate::message::put_message;
use crate::priority::{put_priority, read_priority};
use crate::senders::{Sender, read_sender};
use crate::stamps::read_date;
use crate::{Syslog, SyslogFault};
use entry_model::{FieldsBuilder, Text};
use std::alloc::{AllocError, Global};

/// What a message of [RFC 3164](https://www.rfc-editor.org/rfc/rfc3164), section 4, tells: its priority and the facility in
/// it, its host, its tag as the application's name, the process between brackets, where there is one, and its text, unless
/// that is empty. Its time is one of this year, at `location` seconds east of UTC.
///
/// The faults come from the left: `Pri`, `Time`, `Header`. A host ends at the first space and a tag at the first space, `[`
/// or `:`; both have a character at least, and so has a process. A colon stands behind them.
pub fn read_3164(alloc: Global, text: &str, year: u16, location: i32) -> Result<Syslog, SyslogFault>
    ensures ok { IfOk result (λ syslog. Tells3164 year location text.now (meaning_of syslog)) }
    ensures fault { IfErr result (IsFault3164 year location text.now) }
{
    let Some((priority, dated)) = read_priority(text) else {
        return Err(SyslogFault::Pri);
    };
    let Some((instant, named)) = read_date(dated, year, location) else {
        return Err(SyslogFault::Time);
    };
    let sender = match read_sender(named) {
        Ok(sender) => sender,
        Err(left) => {
            let at = text.len() - left;
            return Err(SyslogFault::Header { at });
        }
    };
    let mut fields = FieldsBuilder::new(alloc);
    put_priority(alloc, &mut fields, priority)?;
    put_sender(alloc, &mut fields, sender)?;
    Ok(Syslog {
        fields: fields.finish()?,
        timestamp: Some(instant),
        severity: priority % 8,
    })
}

/// Puts what stands behind the time into the members.
fn put_sender(
    alloc: Global,
    members: &mut FieldsBuilder,
    sender: Sender<'_>,
) -> Result<(), AllocError>
    ensures { OnOk result (seen members.new.entries ≡ put_all (seen members.old.entries) (told_sender (tail_of sender.entry))) }
{
    put_text(
        alloc,
        members,
        "hostname",
        Text::from_str(alloc, sender.host)?,
    )?;
    put_text(
        alloc,
        members,
        "appname",
        Text::from_str(alloc, sender.tag)?,
    )?;
    put_process(alloc, members, sender.process)?;
    put_message(alloc, members, sender.message)
}

/// Puts a process into the members, where there is one.
fn put_process(
    alloc: Global,
    members: &mut FieldsBuilder,
    process: Option<&str>,
) -> Result<(), AllocError>
    ensures { OnOk result (seen members.new.entries ≡ put_all (seen members.old.entries) (told_process (option_map (λ own. own.now) process.entry))) }
{
    match process {
        Some(own) => put_text(alloc, members, "proc_id", Text::from_str(alloc, own)?),
        None => Ok(()),
    }
}
