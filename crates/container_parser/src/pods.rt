// The pod of the last path, which is kept.
ghost use Rattle.std.specs.Prelude.{◌≡◌, IfOk, OnOk, IsTrue, codes};
ghost use Rattle.std.specs.Coded.{Coded-set};
ghost use Rattle.entry_model.specs.Code.{datum_code};
ghost use Rattle.entry_model.specs.Datum.{datum, fields, is_map, no_members};
ghost use Rattle.entry_model.specs.LogRecord.{members_in};
ghost use Rattle.container_parser.specs.Computed.{pod_in};
ghost use Rattle.container_parser.specs.Told.{with_pod};

use crate::entry::put_pod;
use crate::pod::{Pod, pod_of_path};
use entry_model::{Fields, Text, Value};
use std::alloc::{AllocError, Global};
use std::cell::RefCell;

/// What tells of the pods of paths. The last path is kept with its pod, since the lines of a file come one behind the other.
#[derive(Drop)]
pub struct Pods {
    pub(crate) path_name: Text,
    last: RefCell<KnownPath>,
    pub ghost path_named: { path_name ≡ codes "log.file.path" },
}

/// A path, and the pod that it tells of.
#[derive(Drop)]
struct KnownPath {
    path: Text,
    pod: Option<Pod>,
    /// A resource that has the pod and nothing else.
    resource: Value,
    pub ghost told: { pod ≡ pod_in path },
    pub ghost alone: { datum resource ≡ fields (with_pod pod no_members) } by { Coded-set datum_code (datum resource) (fields (with_pod pod no_members)) },
}

impl Pods {
    /// The first path that is kept is the empty one.
    pub fn new(alloc: Global) -> Result<Pods, AllocError> {
        let path_name = Text::from_str(alloc, "log.file.path")?;
        let known = KnownPath::new(alloc, &Text::empty())?;
        Ok(Pods {
            path_name,
            last: RefCell::new(known),
        })
    }

    /// The resource with the pod that a path tells of. Where the path is the one that is kept, its pod is.
    pub(crate) fn put_pod_of(
        &self,
        alloc: Global,
        path: &Text,
        resource: Value,
    ) -> Result<Value, AllocError>
        requires { IsTrue (is_map resource) }
        ensures { IfOk result (λ value. datum value ≡ fields (with_pod (pod_in path.now) (members_in (datum resource)))) }
    {
        match self.last.try_borrow_mut() {
            Ok(mut known) => put_known(alloc, &mut *known, path, resource),
            Err(_) => {
                let pod = pod_of(alloc, path.as_str())?;
                put_pod(alloc, resource, pod)
            }
        }
    }
}

/// The resource with the pod that a path tells of, which is kept from then on.
fn put_known(
    alloc: Global,
    known: &mut KnownPath,
    path: &Text,
    resource: Value,
) -> Result<Value, AllocError>
    requires { IsTrue (is_map resource) }
    ensures { IfOk result (λ value. datum value ≡ fields (with_pod (pod_in path.now) (members_in (datum resource)))) }
{
    known.keep(alloc, path)?;
    known.put_in(alloc, resource)
}

impl KnownPath {
    fn new(alloc: Global, path: &Text) -> Result<KnownPath, AllocError>
        ensures { IfOk result (λ known. known.path ≡ path.now) }
    {
        let pod = pod_of(alloc, path.as_str())?;
        let resource = put_pod(alloc, no_resource(alloc), shared_pod(&pod)?)?;
        let path = path.share()?;
        Ok(KnownPath {
            path,
            pod,
            resource,
        })
    }

    /// Keeps this path in the place of the one that is kept.
    fn keep(&mut self, alloc: Global, path: &Text) -> Result<(), AllocError>
        ensures { OnOk result (self.new.path ≡ path.now) }
    {
        if self.path.as_str() == path.as_str() {
            return Ok(());
        }
        *self = KnownPath::new(alloc, path)?;
        Ok(())
    }

    /// The resource with the pod of the path. What has nothing else is copied at once.
    fn put_in(&self, alloc: Global, resource: Value) -> Result<Value, AllocError>
        requires { IsTrue (is_map resource) }
        ensures { IfOk result (λ value. datum value ≡ fields (with_pod (pod_in self.now.path) (members_in (datum resource)))) }
    {
        let Some(pod) = &self.pod else {
            return Ok(resource);
        };
        if has_nothing(&resource) {
            return self.resource.copy(alloc);
        }
        let pod = pod.share()?;
        put_pod(alloc, resource, Some(pod))
    }
}

/// A resource without members.
#[tactic(auto, using(crate::proofs::Resources::nothing_seen))]
fn no_resource(alloc: Global) -> Value
    ensures { datum result ≡ fields no_members }
{
    Value::Map(Fields::new(alloc))
}

fn has_nothing(value: &Value) -> bool
    ensures { IsTrue result → members_in (datum value.now) ≡ no_members }
{
    match value {
        Value::Map(members) => members.is_empty(),
        Value::Null | Value::Bool(_) | Value::Int(_) | Value::Text(_) | Value::List(_) => false,
    }
}

fn shared_pod(pod: &Option<Pod>) -> Result<Option<Pod>, AllocError>
    ensures { IfOk result (λ shared. shared ≡ pod.now) }
{
    match pod {
        Some(pod) => Ok(Some(pod.share()?)),
        None => Ok(None),
    }
}

#[tactic(auto, using(crate::proofs::PodsTold::pod_is_told))]
fn pod_of(alloc: Global, path: &str) -> Result<Option<Pod>, AllocError>
    ensures { IfOk result (λ pod. pod ≡ pod_in path.now) }
{
    let pod = pod_of_path(alloc, path)?;
    Ok(pod)
}
