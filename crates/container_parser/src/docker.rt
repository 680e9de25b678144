// Lines of Docker's JSON files.
ghost use Rattle.std.specs.Prelude.{◌≡◌, IfOk, IfErr, option_map};
ghost use Rattle.entry_model.specs.Datum.{datum, members_of};
ghost use Rattle.entry_model.specs.Seen.{seen};
ghost use Rattle.json_text.specs.Fault.{IsFault};
ghost use Rattle.container_parser.specs.DockerLines.{IsObjectOf, text_in, text_at, value_at};
ghost use Rattle.container_parser.specs.Lines.{IsLine, IsDockerFaultOf, IsRecordOf, told};
ghost use Rattle.container_parser.specs.declared.format.Format.TheVariants.{Docker};

use crate::written::written_line;
use crate::{ContainerFault, ContainerLine};
use entry_model::{Fields, Text, Value};
use json_text::JsonFault;
use std::alloc::{AllocError, Global};
use time_layout::rfc3339;

pub fn docker_line(alloc: Global, text: &str) -> Result<ContainerLine, ContainerFault>
    ensures ok { IfOk result (λ line. IsLine Docker text.now line) }
    ensures fault { IfErr result (IsDockerFaultOf text.now) }
{
    match written_line(alloc, text)? {
        Some(line) => Ok(line),
        None => line_of_object(alloc, text),
    }
}

/// A line whose members are in any order, or more than the three.
fn line_of_object(alloc: Global, text: &str) -> Result<ContainerLine, ContainerFault>
    ensures ok { IfOk result (λ line. IsLine Docker text.now line) }
    ensures fault { IfErr result (IsDockerFaultOf text.now) }
{
    let found = match object(alloc, text) {
        Ok(found) => found,
        Err(fault) => return Err(told(fault)),
    };
    let Some(members) = found else {
        return Err(ContainerFault::NotDocker);
    };
    let Some(line) = record_of(alloc, &members)? else {
        return Err(ContainerFault::NotDocker);
    };
    Ok(line)
}

/// The members of the object that the text is; `None` where it is another JSON value.
fn object(alloc: Global, text: &str) -> Result<Option<Fields>, JsonFault>
    ensures ok { IfOk result (λ members. IsObjectOf text.now (option_map (λ map. members_of (seen map.entries)) members)) }
    ensures fault { IfErr result (IsFault text.now) }
{
    match json_text::read(alloc, text) {
        Ok(Value::Map(members)) => Ok(Some(members)),
        Ok(_) => Ok(None),
        Err(fault) => Err(fault),
    }
}

fn told(fault: JsonFault) -> ContainerFault
    ensures { result ≡ told fault }
{
    match fault {
        JsonFault::Syntax { .. } | JsonFault::TooDeep { .. } => ContainerFault::NotDocker,
        JsonFault::Memory => ContainerFault::Memory,
    }
}

/// What the members say, where they are those of a line.
fn record_of(alloc: Global, members: &Fields) -> Result<Option<ContainerLine>, AllocError>
    ensures { IfOk result (IsRecordOf (members_of (seen members.now.entries))) }
{
    let Some(time) = text_of(alloc, members, "time")? else {
        return Ok(None);
    };
    let Ok(timestamp) = rfc3339(time.as_str(), 9) else {
        return Ok(None);
    };
    let Some(stream) = text_of(alloc, members, "stream")? else {
        return Ok(None);
    };
    let Some(text) = text_of(alloc, members, "log")? else {
        return Ok(None);
    };
    Ok(Some(ContainerLine {
        timestamp,
        stream,
        partial: false,
        text,
    }))
}

/// The text that is the value of the member of this name.
fn text_of(alloc: Global, members: &Fields, name: &str) -> Result<Option<Text>, AllocError>
    ensures { IfOk result (λ text. text ≡ text_at name.now (members_of (seen members.now.entries))) }
{
    let name = Text::from_str(alloc, name)?;
    let Some(value) = value_of(members, &name) else {
        return Ok(None);
    };
    let Some(text) = text_in(value) else {
        return Ok(None);
    };
    Ok(Some(text.share()?))
}

fn value_of<'m>(members: &'m Fields, name: &Text) -> Option<&'m Value>
    ensures { option_map (λ value. datum value.now) result ≡ value_at name.now (members_of (seen members.now.entries)) }
{
    members.get(name)
}

pub fn text_in(value: &Value) -> Option<&Text>
    ensures { option_map (λ text. text.now) result ≡ text_in (datum value.now) }
{
    match value {
        Value::Text(text) => Some(text),
        Value::Null | Value::Bool(_) | Value::Int(_) | Value::List(_) | Value::Map(_) => None,
    }
}
