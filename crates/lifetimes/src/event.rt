// What a script is made of.
use mem_world::WorldStep;

/// One event of a script.
#[derive(Drop)]
pub enum Event {
    /// Another process does this step. It has to be lawful after what came before.
    World(WorldStep),
    /// Another process does this step within the next poll, once so many calls on the tree were made in it. A step that
    /// isn't lawful then is passed over, and one that the next poll or opening doesn't reach is dropped at its end.
    During { calls: u32, step: WorldStep },
    /// The session polls. There has to be one.
    Poll,
    /// The next poll or opening is stopped: so many calls on the disk pass in it, and the next one is begun and no more.
    /// It ends with what a crash then leaves, of which `outcome` picks one image, and with no session, also where it made
    /// fewer calls. Of two stops before one such event the later counts.
    Stop { calls: u32, outcome: u32 },
    /// In the next poll or opening the call on the disk with this number fails, where 1 is the first. One that isn't reached is
    /// dropped. Where the poll or the opening ends by it there is no session, and the script goes on.
    FailDisk { call: u32 },
    /// In the next poll the call on the tree with this number fails, where 1 is the first. One that isn't reached is dropped, and
    /// an opening reaches none.
    FailTree { call: u32 },
    /// A session is opened on what the disk has. There must be none.
    Reopen,
}
