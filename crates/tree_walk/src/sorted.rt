// Paths in order.
ghost use Rattle.std.specs.Prelude.{IfOk};
ghost use Rattle.tree_walk.specs.Inner.Gained.{IsSorted};

use entry_model::Text;
use std::alloc::AllocError;

/// The same paths in byte order, each once.
pub(crate) fn sorted(mut paths: Vec<Text>) -> Result<Vec<Text>, AllocError>
    ensures { IfOk result (λ sorted. IsSorted paths.items sorted.items) }
{
    paths.sort()?;
    paths.dedup();
    Ok(paths)
}
