// Operators as settings ask for them.
ghost use Rattle.std.specs.Prelude.{◌≡◌, ◌≤◌, ◌++◌, List, IfOk, IfErr, option_map};
ghost use Rattle.expr_lang.specs.TreeOf.{tree_of};
ghost use Rattle.op_kinds.specs.AnyOpView as view;
ghost use Rattle.op_kinds.specs.Compilable.{IsCompilable};
ghost use Rattle.op_kinds.specs.Compiled as compiled;
ghost use Rattle.op_kinds.specs.Compiled.{IsCompiledTo};
ghost use Rattle.op_kinds.specs.Readings.{Caused, Reading, condition_readings, own_readings, readings};
ghost use Rattle.op_kinds.specs.Inner.WorkView.{IsWorkOf, operator_of};

use crate::action::Action;
use crate::any_op::Form;
use crate::conditional::Conditional;
use crate::reading::condition;
use crate::router::Router;
use crate::types::recombining::Join;
use crate::types::{
    adding, container_reading, copying, csv_parsing, filtering, flattening, json_parsing,
    key_value_parsing, moving, recombining, regex_parsing, removing, retaining, severity_parsing,
    syslog_parsing, time_parsing,
};
use crate::{AnyOp, OpCause};
use entry_model::Text;
use expr_lang::Expr;
use recombine::Recombine;
use settings_text::{OnError, OpKind, OpSpec};
use std::alloc::Global;

/// The operator that the settings of one ask for. Of the texts in them that can't be read, one of the least cause is told.
pub fn compile(alloc: Global, spec: &OpSpec) -> Result<AnyOp, OpCause>
    requires { IsCompilable spec.now.kind }
    ensures ok { IfOk result (IsCompiledTo spec.now) }
    ensures cause { IfErr result (Caused (readings spec.now)) }
{
    match work_of(alloc, &spec.kind) {
        Ok(work) => {
            let condition = condition(alloc, &spec.condition)?;
            let drops_faulty = drops_faulty(&spec.kind, spec.on_error);
            Ok(AnyOp {
                form: work.form(condition, drops_faulty),
            })
        }
        Err(own) => Err(refusal(alloc, own, &spec.condition)),
    }
}

/// The cause that counts of an operator that has one of its own.
fn refusal(alloc: Global, own: OpCause, text: &Option<Text>) -> OpCause
    ensures { (all : List Reading) → Caused all own → Caused (all ++ condition_readings text.now) result }
{
    match condition(alloc, text) {
        Ok(_condition) => own,
        Err(other) => own.or_less(other),
    }
}

/// What an operator does, beside its condition.
enum Work {
    Act(Action),
    Route(Router),
}

impl Drop for Work {
    fn drop(self) {
        match self {
            Work::Act(_action) => {}
            Work::Route(_router) => {}
        }
    }
}

impl Work {
    fn form(self, condition: Option<Expr>, drops_faulty: bool) -> Form
        ensures { view.form_of result ≡ operator_of (option_map tree_of condition) drops_faulty self }
    {
        match self {
            Work::Act(action) => Form::Conditional(Conditional {
                condition,
                action,
                drops_faulty,
            }),
            Work::Route(router) => Form::Router(router),
        }
    }
}

fn drops_faulty(kind: &OpKind, on_error: OnError) -> bool
    ensures { result ≡ compiled.drops_faulty kind.now on_error }
{
    match kind {
        OpKind::Noop => false,
        _ => drops(on_error),
    }
}

fn drops(on_error: OnError) -> bool
    ensures { result ≡ compiled.drops on_error }
{
    match on_error {
        OnError::Send | OnError::SendQuiet => false,
        OnError::Drop | OnError::DropQuiet => true,
    }
}

fn work_of(alloc: Global, kind: &OpKind) -> Result<Work, OpCause>
    requires { IsCompilable kind.now }
    ensures ok { IfOk result (IsWorkOf kind.now) }
    ensures cause { IfErr result (Caused (own_readings kind.now)) }
{
    match kind {
        OpKind::Noop => Ok(Work::Act(Action::Noop)),
        OpKind::Container {
            format,
            add_metadata_from_filepath,
        } => Ok(Work::Act(Action::Container(container_reading::compile(
            alloc,
            *format,
            *add_metadata_from_filepath,
        )?))),
        OpKind::Move { from, to } => Ok(Work::Act(Action::Move(moving::compile(alloc, from, to)?))),
        OpKind::Copy { from, to } => {
            Ok(Work::Act(Action::Copy(copying::compile(alloc, from, to)?)))
        }
        OpKind::Add { field, value } => {
            Ok(Work::Act(Action::Add(adding::compile(alloc, field, value)?)))
        }
        OpKind::Remove { field } => {
            Ok(Work::Act(Action::Remove(removing::compile(alloc, field)?)))
        }
        OpKind::Flatten { field } => {
            Ok(Work::Act(Action::Flatten(flattening::compile(alloc, field)?)))
        }
        OpKind::Retain { fields } => {
            Ok(Work::Act(Action::Retain(retaining::compile(alloc, fields.as_slice())?)))
        }
        OpKind::Csv {
            delimiter,
            header,
            parser,
        } => Ok(Work::Act(Action::Parse(csv_parsing::compile(alloc, *delimiter, header, parser)?))),
        OpKind::KeyValue {
            delimiter,
            pair_delimiter,
            parser,
        } => Ok(Work::Act(Action::Parse(key_value_parsing::compile(
            alloc,
            delimiter,
            pair_delimiter,
            parser,
        )?))),
        OpKind::Json { parser } => Ok(Work::Act(Action::Parse(json_parsing::compile(
            alloc, parser,
        )?))),
        OpKind::Regex { regex, parser } => {
            Ok(Work::Act(Action::Parse(regex_parsing::compile(alloc, regex, parser)?)))
        }
        OpKind::Time(time) => Ok(Work::Act(Action::Time(time_parsing::compile(alloc, time)?))),
        OpKind::Severity(severity) => {
            Ok(Work::Act(Action::Severity(severity_parsing::compile(alloc, severity)?)))
        }
        OpKind::Syslog {
            year,
            location,
            parser,
        } => Ok(Work::Act(Action::Syslog(syslog_parsing::compile(
            alloc, *year, *location, parser,
        )?))),
        OpKind::Filter { expr } => Ok(Work::Act(Action::Filter(filtering::compile(alloc, expr)?))),
        OpKind::Router { routes, default } => Ok(Work::Route(Router::compile(
            alloc,
            routes.as_slice(),
            default.is_some(),
        )?)),
        OpKind::Recombine {
            combine_field,
            first,
            mark,
            combine_with,
            max_batch_size,
            newest,
            source_identifier,
        } => {
            let between = combine_with.share()?;
            let told = recombining::read(alloc, combine_field, source_identifier, mark)?;
            let recombine = Recombine::new(*first, told.field, between, *max_batch_size, *newest);
            Ok(Work::Act(Action::Recombine(Join {
                recombine,
                mark: told.mark,
                source: told.source,
            })))
        }
    }
}
