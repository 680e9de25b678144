// The steps that wait.
ghost use Rattle.std.specs.Prelude.{◌≡◌, ◌+◌, ◌≤◌, ℕ, All, length, is_some, IsTrue, vec_len, vec_capacity};
ghost use Rattle.mem_world.specs.TreePlan.{played, due_at, not_due_at, left_after, wanted};
ghost use Rattle.mem_world.specs.TreeRoom.{room_in};
ghost use Rattle.mem_world.specs.TreeSteps.{pair_of, all_pairs, waiting_of, waiting_pairs};

use super::events::Scheduled;
use super::stored::Stored;

// Plays the steps that are due after so many calls, in turn, and skips those that aren't lawful.
pub fn play_due(world: &mut Stored, steps: &mut [Scheduled], calls: u64)
    requires room { length (waiting_pairs steps.old) ≤ world.old.room }
    requires rooms { (file : ℕ) → wanted (waiting_pairs steps.old) file ≤ room_in world.old.rooms file }
    ensures history { world.new.history ≡ played world.old.history (due_at calls (waiting_pairs steps.old)) }
    ensures waiting { waiting_pairs steps.new ≡ not_due_at calls (waiting_pairs steps.old) }
    ensures all { all_pairs steps.new ≡ all_pairs steps.old }
    ensures room { length (waiting_pairs steps.new) ≤ world.new.room }
    ensures rooms { (file : ℕ) → wanted (waiting_pairs steps.new) file ≤ room_in world.new.rooms file }
{
    for place in 0..steps.len() {
        play_one(world, &mut steps[place], calls);
    }
}

fn play_one(world: &mut Stored, scheduled: &mut Scheduled, calls: u64)
    requires room { length (waiting_of scheduled.old) ≤ world.old.room }
    requires rooms { (file : ℕ) → wanted (waiting_of scheduled.old) file ≤ room_in world.old.rooms file }
    ensures history { world.new.history ≡ played world.old.history (due_at calls (waiting_of scheduled.old)) }
    ensures waiting { waiting_of scheduled.new ≡ not_due_at calls (waiting_of scheduled.old) }
    ensures pair { pair_of scheduled.new ≡ pair_of scheduled.old }
    ensures room { length (waiting_of scheduled.new) + world.old.room
        ≤ world.new.room + length (waiting_of scheduled.old) }
    ensures rooms { (file : ℕ) → wanted (waiting_of scheduled.new) file + room_in world.old.rooms file
        ≤ room_in world.new.rooms file + wanted (waiting_of scheduled.old) file }
{
    if scheduled.number != calls {
        return;
    }
    if let Some(ready) = scheduled.ready.take() {
        if world.is_lawful(&ready.step) {
            world.play(ready);
        }
    }
}

// Keeps the steps that wait, with the number of calls that are left after so many.
pub fn renew(steps: &mut Vec<Scheduled>, calls: u64)
    requires { All (λ pair. calls ≤ pair.0) (waiting_pairs steps.old.items) }
    ensures waiting { waiting_pairs steps.new.items ≡ left_after calls (waiting_pairs steps.old.items) }
    ensures all { all_pairs steps.new.items ≡ left_after calls (waiting_pairs steps.old.items) }
    ensures len { vec_len steps.new ≤ vec_len steps.old }
    ensures capacity { vec_capacity steps.new ≡ vec_capacity steps.old }
{
    steps.retain(|scheduled| scheduled.ready.is_some());
    count_down(steps.as_mut_slice(), calls);
}

fn count_down(steps: &mut [Scheduled], calls: u64)
    requires waiting { All (λ scheduled. IsTrue (is_some scheduled.ready)) steps.old }
    requires numbers { All (λ scheduled. calls ≤ scheduled.number) steps.old }
    ensures waiting { waiting_pairs steps.new ≡ left_after calls (all_pairs steps.old) }
    ensures all { all_pairs steps.new ≡ left_after calls (all_pairs steps.old) }
{
    for scheduled in steps.iter_mut() {
        scheduled.number -= calls;
    }
}
