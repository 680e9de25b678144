// Lines of containers, and the paths of their files.
use crate::shown::{write_text, write_value};
use container_parser::{
    ContainerLine, ContainerOp, Format, Pod, detect, pod_of_path, read_line, told_by,
};
use entry_model::{Entry, Fields, Text, Value};
use std::alloc::{AllocError, Global};

/// `detect`, with a line as the input: its format.
pub fn detected(alloc: Global, text: &str) -> Result<String, AllocError> {
    format!(in alloc; "{:?}", detect(text))
}

/// `docker`, with a line as the input.
pub fn docker(alloc: Global, text: &str) -> Result<String, AllocError> {
    line(alloc, text, Format::Docker)
}

/// `cri`, with a line as the input. CRI-O and containerd have one answer.
pub fn cri(alloc: Global, text: &str) -> Result<String, AllocError> {
    let crio = line(alloc, text, Format::Crio)?;
    let containerd = line(alloc, text, Format::Containerd)?;
    if crio.as_str() == containerd.as_str() {
        return Ok(crio);
    }
    format!(in alloc; "CRI-O: {crio}\ncontainerd: {containerd}")
}

/// Time, stream, `full` or `part`, and the text, or the fault.
fn line(alloc: Global, text: &str, format: Format) -> Result<String, AllocError> {
    match read_line(alloc, text, format) {
        Ok(read) => line_told(alloc, &read),
        Err(fault) => format!(in alloc; "{fault:?}"),
    }
}

fn line_told(alloc: Global, line: &ContainerLine) -> Result<String, AllocError> {
    let mut out = String::new(alloc);
    write!(out, "{} ", line.timestamp)?;
    write_text(line.stream.as_str(), &mut out)?;
    out.push_str(if line.partial { " part " } else { " full " })?;
    write_text(line.text.as_str(), &mut out)?;
    Ok(out)
}

/// `pod`, with a path as the input: the names in it, or `none`.
pub fn pod(alloc: Global, text: &str) -> Result<String, AllocError> {
    match pod_of_path(alloc, text)? {
        Some(pod) => pod_told(alloc, &pod),
        None => String::from_str(alloc, "none"),
    }
}

fn pod_told(alloc: Global, pod: &Pod) -> Result<String, AllocError> {
    let Pod {
        namespace,
        pod,
        uid,
        container,
        restarts,
    } = pod;
    format!(in alloc;
        "namespace {namespace}, pod {pod}, uid {uid}, container {container}, restarts {restarts}"
    )
}

/// `container FORMAT POD PATH`, with the body of an entry as the input, and `any` where each line tells its format, `pod` or
/// `no_pod`, and the path of the file or nothing: what the entry becomes, or `none`.
pub fn container(alloc: Global, words: &str, text: &str) -> Result<String, AllocError> {
    let (format, rest) = words.split_once(' ').unwrap_or((words, ""));
    let (by_path, path) = rest.split_once(' ').unwrap_or((rest, ""));
    let op = ContainerOp {
        format: format_of(format),
        by_path: by_path == "pod",
    };
    let entry = entry_of(alloc, text, path)?;
    match op.read(alloc, &entry)? {
        Some((_format, line)) => entry_told(alloc, op.by_path, line, entry),
        None => String::from_str(alloc, "none"),
    }
}

fn entry_told(
    alloc: Global,
    by_path: bool,
    line: ContainerLine,
    entry: Entry,
) -> Result<String, AllocError> {
    let told = told_by(alloc, by_path, line, entry)?;
    entry_shown(alloc, &told)
}

fn entry_shown(alloc: Global, entry: &Entry) -> Result<String, AllocError> {
    let mut out = String::new(alloc);
    write!(out, "time {}\nbody ", entry.timestamp.unwrap_or(0))?;
    write_value(&entry.body, &mut out)?;
    out.push_str("\nattributes ")?;
    write_value(&entry.attributes, &mut out)?;
    out.push_str("\nresource ")?;
    write_value(&entry.resource, &mut out)?;
    Ok(out)
}

fn format_of(name: &str) -> Option<Format> {
    match name {
        "docker" => Some(Format::Docker),
        "crio" => Some(Format::Crio),
        "containerd" => Some(Format::Containerd),
        _ => None,
    }
}

fn entry_of(alloc: Global, body: &str, path: &str) -> Result<Entry, AllocError> {
    let mut entry = Entry::new(alloc, Text::from_str(alloc, body)?)?;
    if !path.is_empty() {
        entry.attributes = Value::Map(attributes_of(alloc, path)?);
    }
    Ok(entry)
}

fn attributes_of(alloc: Global, path: &str) -> Result<Fields, AllocError> {
    let mut attributes = Fields::new(alloc);
    let name = Text::from_str(alloc, "log.file.path")?;
    attributes.insert(name, Value::Text(Text::from_str(alloc, path)?))?;
    Ok(attributes)
}
