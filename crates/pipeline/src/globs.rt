// The globs of some settings.
ghost use Rattle.std.specs.Prelude.{IfOk, IfErr};
ghost use Rattle.pipeline.specs.Globs.{ArePatterns, IsGlobFault};

use crate::BuildFault;
use entry_model::Text;
use glob_match::{Glob, GlobFault};
use std::alloc::Global;

/// The globs that the texts of the includes, or of the excludes, spell.
pub(crate) fn globs_of(
    alloc: Global,
    exclude: bool,
    texts: &[Text],
) -> Result<Vec<Glob>, BuildFault>
    ensures ok { IfOk result (λ globs. ArePatterns texts.now globs.items) }
    ensures fault { IfErr result (IsGlobFault exclude texts.now) }
{
    let mut globs = Vec::new(alloc);
    for (place, text) in texts.iter().enumerate() {
        match Glob::read(alloc, text.as_str()) {
            Ok(glob) => globs.push(glob)?,
            Err(GlobFault::Memory) => return Err(BuildFault::Memory),
            Err(GlobFault::Syntax { at }) => {
                return Err(BuildFault::Glob {
                    exclude,
                    place: place as u64,
                    at,
                });
            }
        }
    }
    Ok(globs)
}
