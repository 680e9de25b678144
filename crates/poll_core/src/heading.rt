// What a checkpoint has besides what was taken.
use checkpoint_store::Eras;

/// The settings that were in force, and the greatest time of a line that is kept, in nanoseconds since 1970.
#[derive(Clone, Copy)]
pub(crate) struct Heading<'s> {
    pub eras: &'s Eras,
    pub observed: u64,
}
