// The type `move`.
ghost use Rattle.std.specs.Prelude.{[], ◌∷◌, IfOk, IfErr};
ghost use Rattle.field_paths.specs.PathText.{IsPathText};
ghost use Rattle.op_kinds.specs.Readings as readings;
ghost use Rattle.op_kinds.specs.Readings.{Caused};

use crate::OpCause;
use crate::reading::two_paths;
use entry_model::Text;
use field_ops::Move;
use std::alloc::Global;

pub(crate) fn compile(alloc: Global, from: &Text, to: &Text) -> Result<Move, OpCause>
    ensures ok { IfOk result (λ op. IsPathText from.now op.from × IsPathText to.now op.to) }
    ensures cause { IfErr result (Caused (readings.path from.now ∷ readings.path to.now ∷ [])) }
{
    let (source, target) = two_paths(alloc, from, to)?;
    Ok(Move::new(source, target))
}
