// What becomes of an entry.
ghost use Rattle.std.specs.Prelude.{◌≡◌, codes, IfOk, OnOk, IsTrue, option_and_then, option_map};
ghost use Rattle.std.specs.BTreeMap.{insert_entry};
ghost use Rattle.std.specs.Cmp.Lexicographic.{slice_cmp};
ghost use Rattle.std.specs.Ordering.{nat_cmp};
ghost use Rattle.container_parser.specs.DockerLines.{text_in};
ghost use Rattle.entry_model.specs.Datum as model;
ghost use Rattle.entry_model.specs.Datum.{datum, fields, is_map};
ghost use Rattle.entry_model.specs.LogRecord.{log_record, members_in};
ghost use Rattle.field_paths.specs.MapOf.{members_seen};
ghost use Rattle.field_paths.specs.Members.{with_member, member_at};
ghost use Rattle.container_parser.specs.Inner.Asked.{pod_asked_in};
ghost use Rattle.container_parser.specs.Told as told;

use crate::docker::text_in;
use crate::line::ContainerLine;
use crate::pod::Pod;
use crate::pods::Pods;
use entry_model::{Entry, Fields, Text, Value};
use std::alloc::{AllocError, Global};

/// The entry with what its line says, and with the pod of its file.
pub fn told_by(
    alloc: Global,
    by_path: bool,
    line: ContainerLine,
    entry: Entry,
) -> Result<Entry, AllocError>
    ensures { IfOk result (λ made. log_record made ≡ told.told_by by_path line (log_record entry)) }
{
    let pods = Pods::new(alloc)?;
    pods.told_by(alloc, by_path, line, entry)
}

impl Pods {
    /// As [`told_by`], by what is kept of the last path.
    #[tactic(auto, unfolding(crate::specs::Told::told_by))]
    pub fn told_by(
        &self,
        alloc: Global,
        by_path: bool,
        line: ContainerLine,
        entry: Entry,
    ) -> Result<Entry, AllocError>
        ensures { IfOk result (λ made. log_record made ≡ told.told_by by_path line (log_record entry)) }
    {
        let attributes = entry.attributes;
        let resource = self.resource_told(alloc, by_path, &attributes, entry.resource)?;
        let attributes = with_text(alloc, attributes, "log.iostream", line.stream)?;
        Ok(Entry {
            body: Value::Text(line.text),
            attributes,
            resource,
            timestamp: Some(line.timestamp),
            severity: entry.severity,
            severity_text: entry.severity_text,
        })
    }

    /// The resource with the pod that the path of the file tells of, where that is asked for.
    fn resource_told(
        &self,
        alloc: Global,
        by_path: bool,
        attributes: &Value,
        resource: Value,
    ) -> Result<Value, AllocError>
        requires { IsTrue (is_map resource) }
        ensures { IfOk result (λ value. datum value ≡ fields (told.with_pod (pod_asked_in by_path (members_in (datum attributes.now))) (members_in (datum resource)))) }
    {
        if !by_path {
            return Ok(resource);
        }
        match path_of(attributes, &self.path_name) {
            Some(path) => self.put_pod_of(alloc, path, resource),
            None => Ok(resource),
        }
    }
}

/// The path of the file, where the attributes have it at this name.
fn path_of<'v>(attributes: &'v Value, name: &Text) -> Option<&'v Text>
    ensures { option_map (λ path. path.now) result ≡ option_and_then text_in (member_at name.now (members_in (datum attributes.now))) }
{
    match member_of(attributes, name) {
        Some(value) => text_in(value),
        None => None,
    }
}

fn member_of<'v>(map: &'v Value, name: &Text) -> Option<&'v Value>
    ensures { option_map (λ member. datum member.now) result ≡ member_at name.now (members_in (datum map.now)) }
{
    let Value::Map(members) = map else {
        return None;
    };
    members.get(name)
}

/// The map with the pod.
pub(crate) fn put_pod(alloc: Global, resource: Value, pod: Option<Pod>) -> Result<Value, AllocError>
    requires { IsTrue (is_map resource) }
    ensures { IfOk result (λ value. datum value ≡ fields (told.with_pod pod (members_in (datum resource)))) }
{
    let Some(pod) = pod else {
        return Ok(resource);
    };
    let resource = with_text(alloc, resource, "k8s.container.name", pod.container)?;
    let resource = with_text(alloc, resource, "k8s.container.restart_count", pod.restarts)?;
    let resource = with_text(alloc, resource, "k8s.namespace.name", pod.namespace)?;
    let resource = with_text(alloc, resource, "k8s.pod.name", pod.pod)?;
    let resource = with_text(alloc, resource, "k8s.pod.uid", pod.uid)?;
    Ok(resource)
}

/// A map with a text at a name.
fn with_text(alloc: Global, map: Value, name: &str, content: Text) -> Result<Value, AllocError>
    ensures { IfOk result (λ value. datum value ≡ fields (with_member name.now (model.text content) (members_in (datum map)))) }
{
    let mut members = members_of(alloc, map);
    insert(alloc, &mut members, name, Value::Text(content))?;
    Ok(Value::Map(members))
}

fn insert(alloc: Global, fields: &mut Fields, name: &str, value: Value) -> Result<(), AllocError>
    ensures { OnOk result (fields.new.entries ≡ insert_entry (slice_cmp nat_cmp) fields.old.entries name.now value) }
{
    let name = Text::from_str(alloc, name)?;
    fields.insert(name, value)?;
    Ok(())
}

fn members_of(alloc: Global, map: Value) -> Fields
    ensures { members_seen result.entries ≡ members_in (datum map) }
{
    match map {
        Value::Map(members) => members,
        Value::Null | Value::Bool(_) | Value::Int(_) | Value::Text(_) | Value::List(_) => {
            Fields::new(alloc)
        }
    }
}
