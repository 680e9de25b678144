// The type `retain`.
ghost use Rattle.std.specs.Prelude.{map, IfOk, IfErr};
ghost use Rattle.op_kinds.specs.Compiled.{ArePathTexts};
ghost use Rattle.op_kinds.specs.Readings as readings;
ghost use Rattle.op_kinds.specs.Readings.{Caused};

use crate::OpCause;
use crate::reading::path;
use entry_model::Text;
use field_ops::Retain;
use field_paths::FieldPath;
use std::alloc::Global;

pub(crate) fn compile(alloc: Global, fields: &[Text]) -> Result<Retain, OpCause>
    ensures ok { IfOk result (λ op. ArePathTexts fields.now op.fields.items) }
    ensures cause { IfErr result (Caused (map readings.path fields.now)) }
{
    let paths = paths(alloc, fields)?;
    Ok(Retain::new(paths))
}

fn paths(alloc: Global, texts: &[Text]) -> Result<Vec<FieldPath>, OpCause>
    ensures ok { IfOk result (λ paths. ArePathTexts texts.now paths.items) }
    ensures cause { IfErr result (Caused (map readings.path texts.now)) }
{
    let mut paths = Vec::new(alloc);
    for text in texts {
        paths.push(path(alloc, text)?)?;
    }
    Ok(paths)
}
