// What a walk has found so far.
ghost use Rattle.std.specs.Prelude.{◌≡◌, []};

use entry_model::Text;
use std::alloc::Global;

#[derive(Drop)]
pub struct Findings {
    /// Paths of files, in no order.
    pub paths: Vec<Text>,
    /// Folders that are still to be listed, in no order.
    pub folders: Vec<Text>,
    /// The lists that failed and the names that aren't UTF-8.
    pub failed: u32,
}

impl Findings {
    pub(crate) fn new(alloc: Global) -> Findings
        ensures paths { result.paths.items ≡ [] }
        ensures folders { result.folders.items ≡ [] }
        ensures failed { result.failed ≡ 0 }
    {
        Findings {
            paths: Vec::new(alloc),
            folders: Vec::new(alloc),
            failed: 0,
        }
    }
}
