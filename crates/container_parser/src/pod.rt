// The pods to which logs belong.
ghost use Rattle.std.specs.Prelude.{◌≡◌, ℕ, List, true, IfOk, IfSome, IfNone, option_map};
ghost use Rattle.container_parser.specs.Pods.{IsPodPath, IsPodOf, AreLast, IsFolder, IsFile, are_names, is_log_end, is_stamp};
ghost use Rattle.container_parser.specs.declared.pod.Pod.{Pod as pod_record};

use crate::bytes::{is_container, is_number, is_part, is_uid};
use crate::split::{at_first, at_last, last_component};
use entry_model::Text;
use std::alloc::{AllocError, Global};

/// Where a container runs, by the path of its log.
#[derive(Drop)]
pub struct Pod {
    pub namespace: Text,
    pub pod: Text,
    pub uid: Text,
    pub container: Text,
    /// How often the container was restarted before, in digits.
    pub restarts: Text,
}

/// The same names, as parts of a path.
#[derive(Clone, Copy)]
struct Names<'p> {
    namespace: &'p str,
    pod: &'p str,
    uid: &'p str,
    container: &'p str,
    restarts: &'p str,
}

impl Pod {
    /// A pod of the same names, which takes no memory.
    pub(crate) fn share(&self) -> Result<Pod, AllocError>
        ensures { IfOk result (λ pod. pod ≡ self.now) }
    {
        Ok(Pod {
            namespace: self.namespace.share()?,
            pod: self.pod.share()?,
            uid: self.uid.share()?,
            container: self.container.share()?,
            restarts: self.restarts.share()?,
        })
    }
}

/// The names that the path of a log has in its last three components, as `<namespace>_<pod>_<uid>/<container>/<n>.log`, or
/// `<n>.log.20240101-000000` once it was rotated, which are the paths where a kubelet keeps logs. `None` exactly where they
/// are others. The first has two `_`, and something before, between and behind them, the uid being of `0` to `9`, `a` to `f`
/// and `-`; the container's name isn't empty and has neither `.` nor `_`; n is digits.
pub fn pod_of_path(alloc: Global, path: &str) -> Result<Option<Pod>, AllocError>
    ensures { IfOk result (IsPodOf path.now) }
{
    match names_of(path) {
        Some(names) => Ok(Some(pod_of(alloc, names)?)),
        None => Ok(None),
    }
}

fn pod_of(alloc: Global, names: Names) -> Result<Pod, AllocError>
    ensures { IfOk result (λ pod. pod ≡ record { namespace = names.entry.namespace.now; pod = names.entry.pod.now; uid = names.entry.uid.now; container = names.entry.container.now; restarts = names.entry.restarts.now }) }
{
    Ok(Pod {
        namespace: Text::from_str(alloc, names.namespace)?,
        pod: Text::from_str(alloc, names.pod)?,
        uid: Text::from_str(alloc, names.uid)?,
        container: Text::from_str(alloc, names.container)?,
        restarts: Text::from_str(alloc, names.restarts)?,
    })
}

fn names_of(path: &str) -> Option<Names>
    ensures some { IfSome result (λ names. IsPodPath path.now (record { namespace = names.namespace.now; pod = names.pod.now; uid = names.uid.now; container = names.container.now; restarts = names.restarts.now })) }
    ensures none { IfNone result ((pod : pod_record) → IsPodPath path.now pod → ⊥) }
{
    let (folder, container, file) = last_components(path)?;
    let (namespace, pod, uid) = folder_names(folder)?;
    let restarts = restarts_of(file)?;
    if !is_container(container.as_bytes()) {
        return None;
    }
    Some(Names {
        namespace,
        pod,
        uid,
        container,
        restarts,
    })
}

/// The last three components.
fn last_components(path: &str) -> Option<(&str, &str, &str)>
    ensures some { IfSome result (λ last. AreLast path.now last.0.now last.1.now last.2.now) }
    ensures none { IfNone result ((folder container file : List ℕ) → AreLast path.now folder container file → ⊥) }
{
    let (parents, file) = at_last(path)?;
    let (front, container) = at_last(parents)?;
    Some((last_component(front), container, file))
}

/// Namespace, pod and uid.
fn folder_names(folder: &str) -> Option<(&str, &str, &str)>
    ensures some { IfSome result (λ names. IsFolder folder.now names.0.now names.1.now names.2.now) }
    ensures none { IfNone result ((namespace pod uid : List ℕ) → IsFolder folder.now namespace pod uid → ⊥) }
{
    let (namespace, rest) = at_first(folder, '_')?;
    let (pod, uid) = at_first(rest, '_')?;
    if !are_names(namespace, pod, uid) {
        return None;
    }
    Some((namespace, pod, uid))
}

fn are_names(namespace: &str, pod: &str, uid: &str) -> bool
    ensures { result ≡ are_names namespace.now pod.now uid.now }
{
    is_part(namespace.as_bytes()) && is_part(pod.as_bytes()) && is_uid(uid.as_bytes())
}

/// The number of restarts.
fn restarts_of(file: &str) -> Option<&str>
    ensures some { IfSome result (λ restarts. IsFile file.now restarts.now) }
    ensures none { IfNone result ((restarts : List ℕ) → IsFile file.now restarts → ⊥) }
{
    let (restarts, rest) = at_first(file, '.')?;
    if !is_number(restarts.as_bytes()) {
        return None;
    }
    if !is_log_end(rest.as_bytes()) {
        return None;
    }
    Some(restarts)
}

#[tactic(auto, unfolding(crate::specs::Pods::is_log_end))]
fn is_log_end(bytes: &[u8]) -> bool
    ensures { result ≡ is_log_end bytes.now }
{
    bytes == b"log".as_slice() || bytes.starts_with(b"log.") && is_stamp(&bytes[4..])
}

#[tactic(auto, unfolding(crate::specs::Pods::is_stamp))]
fn is_stamp(bytes: &[u8]) -> bool
    ensures { result ≡ is_stamp bytes.now }
{
    bytes.len() == 15 && is_number(&bytes[..8]) && bytes[8] == b'-' && is_number(&bytes[9..])
}
