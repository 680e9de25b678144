// The type `container`.
ghost use Rattle.std.specs.Prelude.{◌≡◌, IfOk, IfErr, option_map};
ghost use Rattle.op_kinds.specs.Inner.Applied.{IsApplied, effect};
ghost use Rattle.op_kinds.specs.Compiled as compiled;
ghost use Rattle.op_kinds.specs.Containers as containers;
ghost use Rattle.op_kinds.specs.Containers.{contained, parts_joined};
ghost use Rattle.op_kinds.specs.Kept.{open_groups};
ghost use Rattle.op_kinds.specs.Operator.{with_groups};
ghost use Rattle.op_kinds.specs.declared.cause.OpCause.TheVariants.{Memory};

use crate::action::Applied;
use crate::joining::join;
use crate::state::is_fresh;
use crate::{OpCause, OpState, Record};
use container_parser::{ContainerLine, ContainerOp, Format, Pods};
use entry_model::Text;
use field_paths::{FieldPath, PathFault};
use recombine::Recombine;
use settings_text::FormatSpec;
use state_codec::LEVELS;
use std::alloc::{AllocError, Global};

/// How many parts of a line are joined.
const MOST_PARTS: u32 = 1_000;

/// How lines of containers are read, and their parts joined.
#[derive(Drop)]
pub(crate) struct Container {
    pub(crate) op: ContainerOp,
    pub(crate) parts: Recombine,
    pods: Pods,
    pub ghost joined: { parts ≡ parts_joined },
}

pub(crate) fn compile(
    alloc: Global,
    format: Option<FormatSpec>,
    by_path: bool,
) -> Result<Container, OpCause>
    ensures format { IfOk result (λ made. made.op.format ≡ compiled.format_asked format) }
    ensures path { IfOk result (λ made. made.op.by_path ≡ by_path) }
    ensures cause { IfErr result (λ cause. cause ≡ Memory) }
{
    let field = body(alloc)?;
    let format = format_asked(format);
    let pods = Pods::new(alloc)?;
    Ok(Container {
        op: ContainerOp { format, by_path },
        parts: Recombine::new(false, field, Text::empty(), MOST_PARTS, false),
        pods,
    })
}

fn format_asked(format: Option<FormatSpec>) -> Option<Format>
    ensures { result ≡ compiled.format_asked format }
{
    match format {
        None => None,
        Some(FormatSpec::Docker) => Some(Format::Docker),
        Some(FormatSpec::Crio) => Some(Format::Crio),
        Some(FormatSpec::Containerd) => Some(Format::Containerd),
    }
}

/// The path of the body.
#[tactic(auto, using(crate::proofs::PartLemmas::body_text))]
fn body(alloc: Global) -> Result<FieldPath, AllocError>
    ensures { IfOk result (λ path. path ≡ containers.whole_body) }
{
    match FieldPath::read(alloc, "body") {
        Ok(path) => Ok(path),
        Err(PathFault::NotAPath { .. }) => unreachable!(),
        Err(PathFault::Memory) => Err(AllocError),
    }
}

impl Container {
    /// Reads an entry's body, and puts out what comes of it: a whole line at once, and the parts of one together.
    pub(crate) fn apply(
        &self,
        alloc: Global,
        state: &mut OpState,
        item: Record,
        out: &mut Vec<(u16, Record)>,
    ) -> Result<Applied, AllocError>
        ensures { IfOk result (IsApplied (option_map with_groups (contained self.now.op.format self.now.op.by_path (open_groups state.old) item)) item
            (effect state.old state.new out.old.items out.new.items)) }
    {
        let Some((format, line)) = self.op.read(alloc, item.entry())? else {
            return Ok(Applied::Faulty(item));
        };
        match format {
            Format::Docker => self.put_whole(alloc, state, line, item, out),
            Format::Crio => self.put_part(alloc, state, line, item, out),
            Format::Containerd => self.put_part(alloc, state, line, item, out),
        }
    }

    fn put_whole(
        &self,
        alloc: Global,
        state: &mut OpState,
        line: ContainerLine,
        item: Record,
        out: &mut Vec<(u16, Record)>,
    ) -> Result<Applied, AllocError>
        ensures { IfOk result (IsApplied (option_map with_groups (containers.whole_line (open_groups state.old) self.now.op.by_path item line)) item
            (effect state.old state.new out.old.items out.new.items)) }
    {
        let entry = self
            .pods
            .told_by(alloc, self.op.by_path, line, item.into_entry())?;
        let opened = state.take_groups(alloc);
        *state = OpState::with_groups(opened);
        out.push((0, Record::new(alloc, entry)?))?;
        Ok(Applied::Done)
    }

    fn put_part(
        &self,
        alloc: Global,
        state: &mut OpState,
        line: ContainerLine,
        item: Record,
        out: &mut Vec<(u16, Record)>,
    ) -> Result<Applied, AllocError>
        ensures { IfOk result (IsApplied (option_map with_groups (containers.part_joined (open_groups state.old) self.now.op.by_path item line)) item
            (effect state.old state.new out.old.items out.new.items)) }
    {
        if !item.entry().nests_within(LEVELS as u32) {
            return Ok(Applied::Faulty(item));
        }
        if !line.partial && is_fresh(state) {
            return self.put_whole(alloc, state, line, item, out);
        }
        let source = line.stream.share()?;
        let last = !line.partial;
        let entry = self
            .pods
            .told_by(alloc, self.op.by_path, line, item.into_entry())?;
        join(alloc, &self.parts, state, last, &source, entry, out)
    }
}
