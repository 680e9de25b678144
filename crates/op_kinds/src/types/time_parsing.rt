// The type `time_parser`, and the blocks of other parsers that are like it.
ghost use Rattle.std.specs.Prelude.{◌≡◌, [], ◌∷◌, IfOk};
ghost use Rattle.op_kinds.specs.ParserView.{stamp_of};
ghost use Rattle.op_kinds.specs.Parsers as parsers;
ghost use Rattle.op_kinds.specs.Parsers.{IsLayout, IsGoLayout, IsStampOf, IsTimeKind};
ghost use Rattle.op_kinds.specs.Readings as readings;
ghost use Rattle.op_kinds.specs.Readings.{Answers, layout_reading};
ghost use Rattle.time_severity.specs.declared.time_op.TimeKind.TheVariants as time;

use crate::OpCause;
use crate::reading::{both, path};
use entry_model::Text;
use settings_text::{LayoutType, TimeSpec};
use std::alloc::Global;
use time_layout::Layout;
use time_severity::{EpochKind, TimeKind, TimeOp};

pub(crate) fn compile(alloc: Global, spec: &TimeSpec) -> Result<TimeOp, OpCause>
    ensures ok { IfOk result (λ made. IsStampOf spec.now (stamp_of made)) }
    ensures answers { Answers (readings.path spec.now.parse_from ∷ layout_reading spec.now.layout_type spec.now.layout ∷ []) result }
{
    match both(path(alloc, &spec.parse_from), time_kind(alloc, spec)) {
        Ok((from, kind)) => Ok(TimeOp::new(from, kind)),
        Err(cause) => Err(cause),
    }
}

fn time_kind(alloc: Global, spec: &TimeSpec) -> Result<TimeKind, OpCause>
    ensures ok { IfOk result (IsTimeKind spec.now.layout_type spec.now.layout spec.now.location) }
    ensures answers { Answers (layout_reading spec.now.layout_type spec.now.layout ∷ []) result }
{
    match spec.layout_type {
        LayoutType::Strptime => match layout(alloc, &spec.layout, spec.location) {
            Ok(layout) => Ok(TimeKind::Layout(layout)),
            Err(cause) => Err(cause),
        },
        LayoutType::Gotime => match go_layout(alloc, &spec.layout, spec.location) {
            Ok(layout) => Ok(TimeKind::Layout(layout)),
            Err(cause) => Err(cause),
        },
        LayoutType::Epoch => match count_named(spec.layout.as_str()) {
            Some(kind) => Ok(TimeKind::Epoch(kind)),
            None => Err(OpCause::Layout { at: 0 }),
        },
    }
}

fn layout(alloc: Global, text: &Text, location: i32) -> Result<Layout, OpCause>
    ensures ok { IfOk result (IsLayout text.now location) }
    ensures answers { Answers (readings.layout text.now ∷ []) result }
{
    match Layout::read(alloc, text.as_str(), location) {
        Ok(layout) => Ok(layout),
        Err(fault) => Err(OpCause::from(fault)),
    }
}

fn go_layout(alloc: Global, text: &Text, location: i32) -> Result<Layout, OpCause>
    ensures ok { IfOk result (IsGoLayout text.now location) }
    ensures answers { Answers (readings.go_layout text.now ∷ []) result }
{
    match Layout::read_go(alloc, text.as_str(), location) {
        Ok(layout) => Ok(layout),
        Err(fault) => Err(OpCause::from(fault)),
    }
}

fn count_named(name: &str) -> Option<EpochKind>
    ensures { result ≡ parsers.count_named name.now }
{
    if name == "s" {
        Some(EpochKind::S)
    } else if name == "ms" {
        Some(EpochKind::Ms)
    } else if name == "us" {
        Some(EpochKind::Us)
    } else if name == "ns" {
        Some(EpochKind::Ns)
    } else if name == "s.ms" {
        Some(EpochKind::SMs)
    } else if name == "s.us" {
        Some(EpochKind::SUs)
    } else if name == "s.ns" {
        Some(EpochKind::SNs)
    } else {
        None
    }
}
