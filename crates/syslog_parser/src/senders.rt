// What stands behind the time of RFC 3164 (section 4.1.2 and 4.1.3).
ghost use Rattle.std.specs.Prelude.{◌≡◌, IfOk, IfErr, option_map};
ghost use Rattle.syslog_parser.specs.Inner.Reads.{BeginsWith, IsHostText, StopsInHost, ends_tag, IsTagText, StopsInTag, StopsInProcess};
ghost use Rattle.syslog_parser.specs.Rfc3164.{IsProcess, IsTail, without_space as text_without_space};
ghost use Rattle.syslog_parser.specs.Inner.Senders.{tail_of};

use crate::bytes::{bracketed_count, tag_count, unbroken_count};
use crate::cuts::{cut, split, stands, stands_either};

/// A host, and what of it sends which message.
#[derive(Clone, Copy)]
pub(crate) struct Sender<'t> {
    pub host: &'t str,
    pub tag: &'t str,
    pub process: Option<&'t str>,
    pub message: &'t str,
}

/// The sender of a message and the message, or how many bytes are left from the fault on.
pub(crate) fn read_sender(text: &str) -> Result<Sender<'_>, usize>
    ensures ok { IfOk result (λ sender. IsTail text.now (tail_of sender)) }
    ensures fault { IfErr result (StopsInHost text.now) }
{
    let (host, tagged) = match read_host(text) {
        Ok(read) => read,
        Err(left) => return Err(left),
    };
    let (tag, behind) = match read_tag(tagged) {
        Ok(read) => read,
        Err(left) => return Err(left),
    };
    match read_process(behind) {
        Ok((process, rest)) => Ok(Sender {
            host,
            tag,
            process,
            message: without_space(rest),
        }),
        Err(left) => Err(left),
    }
}

/// A host, and what stands behind its space.
fn read_host(text: &str) -> Result<(&str, &str), usize>
    ensures ok { IfOk result (λ read. IsHostText text.now read.0.now read.1.now) }
    ensures fault { IfErr result (StopsInHost text.now) }
{
    let count = unbroken_count(text.as_bytes());
    if count == 0 || !stands(text, count, b' ') {
        return Err(text.len() - count);
    }
    Ok(cut(text, count))
}

/// A tag, and what stands from its end on.
fn read_tag(text: &str) -> Result<(&str, &str), usize>
    ensures ok { IfOk result (λ read. IsTagText text.now read.0.now read.1.now) }
    ensures fault { IfErr result (StopsInTag text.now) }
{
    let count = tag_count(text.as_bytes());
    if count == 0 || !stands_either(text, count, b':', b'[') {
        return Err(text.len() - count);
    }
    Ok(split(text, count))
}

/// A process between brackets, where there is one, and what stands behind the colon.
fn read_process(text: &str) -> Result<(Option<&str>, &str), usize>
    requires { BeginsWith ends_tag text.now }
    ensures ok { IfOk result (λ read. IsProcess text.now (option_map (λ own. own.now) read.0) read.1.now) }
    ensures fault { IfErr result (StopsInProcess text.now) }
{
    let (_, behind) = cut(text, 0);
    if stands(text, 0, b':') {
        return Ok((None, behind));
    }
    let count = bracketed_count(behind.as_bytes());
    if count == 0 || !stands(behind, count, b']') {
        return Err(behind.len() - count);
    }
    let (own, ended) = cut(behind, count);
    if !stands(ended, 0, b':') {
        return Err(ended.len());
    }
    let (_, rest) = cut(ended, 0);
    Ok((Some(own), rest))
}

/// A message without a space at its front.
fn without_space(text: &str) -> &str
    ensures { result.now ≡ text_without_space text.now }
{
    if stands(text, 0, b' ') {
        let (_, rest) = cut(text, 0);
        return rest;
    }
    text
}
