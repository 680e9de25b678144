// The type `recombine`.
ghost use Rattle.std.specs.Prelude.{◌≡◌, [], ◌∷◌, ◌++◌, IfOk, IfErr, option_map};
ghost use Rattle.entry_model.specs.LogRecord.{log_record};
ghost use Rattle.expr_lang.specs.Grammar.{IsExpression};
ghost use Rattle.expr_lang.specs.TreeOf.{tree_of};
ghost use Rattle.field_paths.specs.PathText.{IsPathText};
ghost use Rattle.op_kinds.specs.Inner.Applied.{IsApplied, effect};
ghost use Rattle.op_kinds.specs.Compiled.{IsPathIfAny};
ghost use Rattle.op_kinds.specs.Grouping as grouping;
ghost use Rattle.op_kinds.specs.Grouping.{joined_by};
ghost use Rattle.op_kinds.specs.Kept.{open_groups};
ghost use Rattle.op_kinds.specs.Operator as operator;
ghost use Rattle.op_kinds.specs.Operator.{with_groups};
ghost use Rattle.op_kinds.specs.Readings as readings;
ghost use Rattle.op_kinds.specs.Readings.{Caused, paths_if_any};

use crate::action::Applied;
use crate::condition::holds;
use crate::joining::join;
use crate::reading::{expression, path};
use crate::{OpCause, OpState, Record};
use entry_model::{Entry, Text, Value};
use expr_lang::Expr;
use field_paths::FieldPath;
use recombine::Recombine;
use std::alloc::{AllocError, Global};

/// How entries are joined, and what is asked of each.
pub(crate) struct Join {
    pub(crate) recombine: Recombine,
    pub(crate) mark: Expr,
    pub(crate) source: Option<FieldPath>,
}

impl Drop for Join {
    fn drop(self) {
        let Join {
            recombine: _recombine,
            mark: _mark,
            source: _source,
        } = self;
    }
}

/// What the texts in the settings say.
#[derive(Drop)]
pub(crate) struct Told {
    pub(crate) field: FieldPath,
    pub(crate) source: Option<FieldPath>,
    pub(crate) mark: Expr,
}

pub(crate) fn read(
    alloc: Global,
    field: &Text,
    source: &Option<Text>,
    mark: &Text,
) -> Result<Told, OpCause>
    ensures field { IfOk result (λ told. IsPathText field.now told.field) }
    ensures source { IfOk result (λ told. IsPathIfAny source.now told.source) }
    ensures mark { IfOk result (λ told. IsExpression mark.now (tree_of told.mark)) }
    ensures cause { IfErr result (Caused (readings.path field.now ∷ (paths_if_any source.now ++ readings.expression mark.now ∷ []))) }
{
    let field = path(alloc, field)?;
    let source = path_if_any(alloc, source)?;
    let mark = expression(alloc, mark)?;
    Ok(Told {
        field,
        source,
        mark,
    })
}

fn path_if_any(alloc: Global, text: &Option<Text>) -> Result<Option<FieldPath>, OpCause>
    ensures ok { IfOk result (λ path. IsPathIfAny text.now path) }
    ensures cause { IfErr result (Caused (paths_if_any text.now)) }
{
    match text {
        Some(text) => Ok(Some(path(alloc, text)?)),
        None => Ok(None),
    }
}

impl Join {
    /// Joins an entry. It can't be done where it isn't known whether the entry is marked.
    pub(crate) fn apply(
        &self,
        alloc: Global,
        state: &mut OpState,
        item: Record,
        out: &mut Vec<(u16, Record)>,
    ) -> Result<Applied, AllocError>
        ensures { IfOk result (IsApplied (option_map with_groups (joined_by self.now.recombine (open_groups state.old) (grouping.source_of self.now.source item) item
            (operator.holds (tree_of self.now.mark) item))) item (effect state.old state.new out.old.items out.new.items)) }
    {
        let Some(mark) = holds(alloc, &self.mark, item.entry())? else {
            return Ok(Applied::Faulty(item));
        };
        let source = source_of(&self.source, item.entry())?;
        join(
            alloc,
            &self.recombine,
            state,
            mark,
            &source,
            item.into_entry(),
            out,
        )
    }
}

/// The source of an entry: the text at the field, where there is one.
fn source_of(field: &Option<FieldPath>, entry: &Entry) -> Result<Text, AllocError>
    ensures { IfOk result (λ source. source ≡ grouping.source_of field.now (log_record entry.now)) }
{
    let Some(field) = field else {
        return Ok(Text::empty());
    };
    match field.get(entry) {
        Some(Value::Text(source)) => Ok(source.share()?),
        _ => Ok(Text::empty()),
    }
}
