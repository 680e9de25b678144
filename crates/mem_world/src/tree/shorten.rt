// The newest bytes of a file are taken out of what was appended to it.
ghost use Rattle.std.specs.Prelude.{◌≡◌, ◌-◌, length, map, min, take};
ghost use Rattle.outside.specs.World.{bytes};
ghost use Rattle.mem_world.specs.TreeEvents.{event_recorded};
ghost use Rattle.mem_world.specs.TreeSpoiled.{cut_to, shortened};
ghost use Rattle.mem_world.specs.WorldSteps.{added_by, event_of};

use super::events::Recorded;
use crate::world::WorldStep;

/// Leaves the file so many bytes.
pub fn cut(history: &mut [Recorded], file: u32, size: usize, surplus: usize)
    requires { surplus ≡ length (bytes (map event_recorded history.old) file) - size }
    ensures { map event_recorded history.new ≡ cut_to file size (map event_recorded history.old) }
{
    let mut left = surplus;
    for recorded in history.iter_mut() {
        left -= cut_event(recorded, file, left);
    }
}

// Takes away the newest bytes that the event appends to the file, at most so many, and answers how many they are.
fn cut_event(recorded: &mut Recorded, file: u32, most: usize) -> usize
    ensures event { event_recorded recorded.new
        ≡ shortened file (length (added_by (event_recorded recorded.old) file) - most) (event_recorded recorded.old) }
    ensures count { result ≡ min most (length (added_by (event_recorded recorded.old) file)) }
{
    match recorded {
        Recorded::Step(step) => cut_step(step, file, most),
        Recorded::Own(_) => 0,
    }
}

fn cut_step(step: &mut WorldStep, file: u32, most: usize) -> usize
    ensures event { event_of step.new
        ≡ shortened file (length (added_by (event_of step.old) file) - most) (event_of step.old) }
    ensures count { result ≡ min most (length (added_by (event_of step.old) file)) }
{
    match step {
        WorldStep::Append { file: named, bytes } => {
            if named.0 == file {
                cut_bytes(bytes, most)
            } else {
                0
            }
        }
        WorldStep::Create { .. } | WorldStep::Rename { .. } | WorldStep::Remove { .. } => 0,
    }
}

fn cut_bytes(bytes: &mut Vec<u8>, most: usize) -> usize
    ensures bytes { bytes.new.items ≡ take (length bytes.old.items - most) bytes.old.items }
    ensures count { result ≡ min most (length bytes.old.items) }
{
    let kept = bytes.len().saturating_sub(most);
    let count = bytes.len() - kept;
    bytes.truncate(kept);
    count
}
