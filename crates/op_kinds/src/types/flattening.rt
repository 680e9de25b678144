// The type `flatten`.
ghost use Rattle.std.specs.Prelude.{[], ◌∷◌, IfOk, IfErr};
ghost use Rattle.field_ops.specs.Rows.{member_of};
ghost use Rattle.field_paths.specs.PathText.{IsPathText};
ghost use Rattle.op_kinds.specs.Readings as readings;
ghost use Rattle.op_kinds.specs.Readings.{Caused};

use crate::OpCause;
use crate::reading::path;
use entry_model::Text;
use field_ops::Flatten;
use std::alloc::Global;

pub(crate) fn compile(alloc: Global, text: &Text) -> Result<Flatten, OpCause>
    ensures ok { IfOk result (λ op. IsPathText text.now (member_of op.parent op.name)) }
    ensures cause { IfErr result (Caused (readings.member text.now ∷ [])) }
{
    let field = path(alloc, text)?;
    if field.is_root() {
        return Err(OpCause::Path {
            at: text.as_str().len(),
        });
    }
    Ok(Flatten::new(field))
}
