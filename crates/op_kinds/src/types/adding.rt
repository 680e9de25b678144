// The type `add`.
ghost use Rattle.std.specs.Prelude.{◌≡◌, [], ◌∷◌, IfOk, IfErr};
ghost use Rattle.entry_model.specs.Datum.{datum};
ghost use Rattle.field_paths.specs.PathText.{IsPathText};
ghost use Rattle.op_kinds.specs.Readings as readings;
ghost use Rattle.op_kinds.specs.Readings.{Caused};

use crate::OpCause;
use crate::reading::path;
use entry_model::Text;
use field_ops::Add;
use settings_text::Literal;
use std::alloc::Global;

pub(crate) fn compile(alloc: Global, field: &Text, value: &Literal) -> Result<Add, OpCause>
    ensures ok { IfOk result (λ op. IsPathText field.now op.field × (datum op.value ≡ value.now)) }
    ensures cause { IfErr result (Caused (readings.path field.now ∷ [])) }
{
    let field = path(alloc, field)?;
    Ok(Add::new(field, value.value().copy(alloc)?))
}
