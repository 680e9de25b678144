// What the body of an entry says.
ghost use Rattle.std.specs.Prelude.{◌≡◌, IfOk};
ghost use Rattle.entry_model.specs.Datum.{datum};
ghost use Rattle.entry_model.specs.LogRecord.{log_record};
ghost use Rattle.container_parser.specs.Told as told;

use crate::fault::ContainerFault;
use crate::format::{Format, detect};
use crate::line::{ContainerLine, read_line};
use entry_model::{Entry, Value};
use std::alloc::{AllocError, Global};

/// How lines of containers are read.
#[derive(Clone, Copy)]
pub struct ContainerOp {
    /// None where each line tells its own.
    pub format: Option<Format>,
    /// Whether the path of the file tells of the pod.
    pub by_path: bool,
}

impl ContainerOp {
    /// What an entry's body says, and the format that it was read in; `None` where it is no line.
    pub fn read(
        &self,
        alloc: Global,
        entry: &Entry,
    ) -> Result<Option<(Format, ContainerLine)>, AllocError>
        ensures { IfOk result (λ read. read ≡ told.body_read self.now.format (log_record entry.now).body) }
    {
        match &entry.body {
            Value::Text(text) => read_as(alloc, self.format_for(text.as_str()), text.as_str()),
            Value::Null | Value::Bool(_) | Value::Int(_) | Value::List(_) | Value::Map(_) => Ok(
                None,
            ),
        }
    }

    fn format_for(&self, line: &str) -> Format
        ensures { result ≡ told.format_for self.now.format line.now }
    {
        match self.format {
            Some(format) => format,
            None => detect(line),
        }
    }
}

fn read_as(
    alloc: Global,
    format: Format,
    line: &str,
) -> Result<Option<(Format, ContainerLine)>, AllocError>
    ensures { IfOk result (λ read. read ≡ told.read_as format line.now) }
{
    match read_line(alloc, line, format) {
        Ok(read) => Ok(Some((format, read))),
        Err(ContainerFault::NotDocker) => Ok(None),
        Err(ContainerFault::NotCri { .. }) => Ok(None),
        Err(ContainerFault::Memory) => Err(AllocError),
    }
}
