// The open files, the newest first.
ghost use Rattle.std.specs.Prelude.{◌≡◌, ◌==◌, filter, not};
ghost use Rattle.outside.specs.Reading.{file_of};
ghost use Rattle.mem_world.specs.TreeHandles.{handles_of};

use std::collections::VecDeque;

/// An open file.
#[derive(Drop)]
pub struct Open {
    pub handle: u64,
    pub file: u32,
}

pub type Handles = VecDeque<Open>;

/// The file that a handle stands for.
pub fn file_of(handles: &Handles, handle: u64) -> Option<u32>
    ensures { result ≡ file_of (handles_of handles.now.items) handle }
{
    match handles.iter().find(|one| one.handle == handle) {
        Some(one) => Some(one.file),
        None => None,
    }
}

pub fn close(handles: &mut Handles, handle: u64)
    ensures { handles_of handles.new.items ≡ filter (λ pair. not (pair.0 == handle)) (handles_of handles.old.items) }
{
    handles.retain(|one| !(one.handle == handle));
}
