// The type `remove`.
ghost use Rattle.std.specs.Prelude.{[], ◌∷◌, IfOk, IfErr};
ghost use Rattle.field_paths.specs.PathText.{IsPathText};
ghost use Rattle.op_kinds.specs.Readings as readings;
ghost use Rattle.op_kinds.specs.Readings.{Caused};

use crate::OpCause;
use crate::reading::path;
use entry_model::Text;
use field_ops::Remove;
use std::alloc::Global;

pub(crate) fn compile(alloc: Global, field: &Text) -> Result<Remove, OpCause>
    ensures ok { IfOk result (λ op. IsPathText field.now op.field) }
    ensures cause { IfErr result (Caused (readings.path field.now ∷ [])) }
{
    let field = path(alloc, field)?;
    Ok(Remove::new(field))
}
