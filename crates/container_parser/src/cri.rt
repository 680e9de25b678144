// Lines of the Container Runtime Interface.
ghost use Rattle.std.specs.Prelude.{◌≡◌, ℕ, IfOk, IfErr, codes};
ghost use Rattle.json_text.specs.Leftmost.{IsLeftmostFault};
ghost use Rattle.container_parser.specs.CriLines.{IsContent, IsSaid};
ghost use Rattle.container_parser.specs.Lines.{IsLine, IsCriFaultOf};
ghost use Rattle.container_parser.specs.Times.{IsTime, place_of};
ghost use Rattle.container_parser.specs.declared.format.Format.TheVariants.{Crio};

use crate::split::at_space;
use crate::stream::stream_of;
use crate::tag::{tag_fault, tagged_partial};
use crate::{ContainerFault, ContainerLine};
use entry_model::Text;
use std::alloc::{AllocError, Global};
use time_layout::{TimeFault, rfc3339};

/// What a line says behind its time.
#[derive(Clone, Copy)]
struct Said<'t> {
    stream: &'static str,
    partial: bool,
    text: &'t str,
}

pub fn cri_line(alloc: Global, line: &str) -> Result<ContainerLine, ContainerFault>
    ensures ok { IfOk result (λ read. IsLine Crio line.now read) }
    ensures fault { IfErr result (IsCriFaultOf line.now) }
{
    let (word, behind) = at_space(line);
    let timestamp = match rfc3339(word, 9) {
        Ok(timestamp) => timestamp,
        Err(fault) => return Err(ContainerFault::NotCri {
            at: place_of(fault),
        }),
    };
    if word.len() == line.len() {
        return Err(ContainerFault::NotCri { at: line.len() });
    }
    match said_of(behind) {
        Ok(said) => Ok(line_of(alloc, timestamp, said)?),
        Err(at) => Err(ContainerFault::NotCri {
            at: word.len() + 1 + at,
        }),
    }
}

fn place_of(fault: TimeFault) -> usize
    ensures { result ≡ place_of fault }
{
    match fault {
        TimeFault::Mismatch { at } => at,
        TimeFault::OutOfRange => 0,
    }
}

fn line_of(alloc: Global, timestamp: u64, said: Said) -> Result<ContainerLine, AllocError>
    ensures { IfOk result (λ line. line ≡ record { timestamp = timestamp; stream = said.entry.stream.now; partial = said.entry.partial; text = said.entry.text.now }) }
{
    let stream = Text::from_str(alloc, said.stream)?;
    let text = Text::from_str(alloc, said.text)?;
    Ok(ContainerLine {
        timestamp,
        stream,
        partial: said.partial,
        text,
    })
}

/// What the text says, or the first byte from which it can't go on.
fn said_of(text: &str) -> Result<Said, usize>
    ensures ok { IfOk result (λ said. IsSaid text.now (record { stream = said.stream.now; content = record { partial = said.partial; text = said.text.now } })) }
    ensures fault { IfErr result (IsLeftmostFault IsSaid text.now) }
{
    let (stream, behind) = match stream_of(text) {
        Ok(parts) => parts,
        Err(at) => return Err(at),
    };
    match content_of(behind) {
        Ok((partial, content)) => Ok(Said {
            stream,
            partial,
            text: content,
        }),
        Err(at) => Err(stream.len() + 1 + at),
    }
}

/// Whether the text is a part that more parts follow, and what it has behind its tag; or the first byte from which it
/// can't go on.
fn content_of(text: &str) -> Result<(bool, &str), usize>
    ensures ok { IfOk result (λ content. IsContent text.now (record { partial = content.0; text = content.1.now })) }
    ensures fault { IfErr result (IsLeftmostFault IsContent text.now) }
{
    let (tag, behind) = at_space(text);
    match tagged_partial(tag) {
        Some(partial) => Ok((partial, behind)),
        None => Err(tag_fault(text)),
    }
}
