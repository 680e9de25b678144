// What a line says.
ghost use Rattle.std.specs.Prelude.{IfOk, IfErr};
ghost use Rattle.container_parser.specs.Lines.{IsLine, IsLineFault};

use crate::cri::cri_line;
use crate::docker::docker_line;
use crate::{ContainerFault, Format};
use entry_model::Text;
use std::alloc::Global;

/// A line as its container wrote it.
#[derive(Drop)]
pub struct ContainerLine {
    /// In nanoseconds since 1970-01-01T00:00:00Z.
    pub timestamp: u64,
    /// To which stream the container wrote: `stdout` or `stderr`, but for lines of Docker.
    pub stream: Text,
    /// Whether the next line of the stream goes on with this one's text. Lines of Docker don't say so.
    pub partial: bool,
    /// In a line of Docker with the LF that ends it.
    pub text: Text,
}

/// What a line of this format says. Lines of CRI-O and of containerd are read alike.
///
/// A line of [Docker](https://docs.docker.com/engine/logging/drivers/json-file/) is a JSON object after RFC 8259 with the
/// texts `log`, `stream` and `time`, whatever else it has; it says `NotDocker` of every other line. A line of the
/// [Container Runtime Interface](https://github.com/kubernetes/design-proposals-archive/blob/main/node/kubelet-cri-logging.md)
/// is a time, `stdout` or `stderr`, and a tag, with a space behind each of the first two, and then its end, or a space and the
/// text; a tag is `P` or `F`, alone or with a colon and anything but spaces behind it. It says `NotCri` of every other line,
/// with the first place that is wrong. Times are those of RFC 3339 with at most nine digits of a second's fraction.
pub fn read_line(alloc: Global, text: &str, format: Format) -> Result<ContainerLine, ContainerFault>
    ensures ok { IfOk result (λ line. IsLine format text.now line) }
    ensures fault { IfErr result (IsLineFault format text.now) }
{
    match format {
        Format::Docker => docker_line(alloc, text),
        Format::Crio | Format::Containerd => cri_line(alloc, text),
    }
}
