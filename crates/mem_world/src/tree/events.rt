// The events of a history, as they are kept.
ghost use Rattle.std.specs.Option.{ForSome};
ghost use Rattle.std.specs.Prelude.{◌≡◌};
ghost use Rattle.mem_world.specs.WorldSteps.{event_of, name_given};

use crate::world::WorldStep;
use entry_model::Text;

/// An event of the agent's own.
#[derive(Drop)]
pub enum Seen {
    Look(u32),
    Miss(Text),
    Unlisted(Text),
}

/// One event of the history.
#[derive(Drop)]
pub enum Recorded {
    Step(WorldStep),
    Own(Seen),
}

/// A step with a copy of the name that it gives, so that playing it takes no memory.
#[derive(Drop)]
pub struct Ready {
    pub step: WorldStep,
    pub name: Text,
    ghost named: { name ≡ name_given (event_of step) },
}

/// A step of the plan.
#[derive(Drop)]
pub struct Scheduled {
    /// The number of calls that come before it.
    pub number: u64,
    pub step: WorldStep,
    /// What will be played, while the step waits.
    pub ready: Option<Ready>,
    ghost same: { ForSome ready (λ ready. event_of ready.step ≡ event_of step) },
}
