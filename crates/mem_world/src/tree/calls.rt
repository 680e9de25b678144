// The calls of a tree in memory.
ghost use Rattle.std.specs.Prelude.{◌≡◌, ◌≤◌, ◌<◌, ◌+◌, [], ◌∷◌, false, length, None, Some, IfOk, IsTrue, OnErr, OnOk};
ghost use Rattle.outside.specs.Closing.{Closes};
ghost use Rattle.outside.specs.Count.{HasCause, HasOneCause};
ghost use Rattle.outside.specs.Lawful.{may_come};
ghost use Rattle.outside.specs.Listing.{Lists, listed_after, nameless_after};
ghost use Rattle.outside.specs.Opening.{Opens, IsSize};
ghost use Rattle.outside.specs.Reading.{Reads, file_of, taken_after, widest_after};
ghost use Rattle.outside.specs.World.{Told, look, has_name, names};
ghost use Rattle.mem_world.specs.TreeCalls.{ListCalls, OpenFileCalls, ReadAtCalls, CloseCalls, Called, Stays, is_to_fail};
ghost use Rattle.mem_world.specs.TreeEvents.{event_seen};

use super::MemTree;
use super::events::Seen;
use super::handles::{self, Open, file_of};
use super::read::read_at;
use entry_model::Text;
use outside::{CallFault, Failed, Handle, Listed, Opened, Tree};
use std::alloc::{AllocError, Global};

impl MemTree {
    ghost use Rattle.mem_world.specs.MemTree.{state_of};
    ghost use Rattle.mem_world.specs.TreeFailures.{still};
    ghost use Rattle.mem_world.specs.TreePlan.{own_since, last_call};

    // Begins a call, and answers whether it is to fail.
    fn begin(&mut self) -> bool
        ensures stays { Stays [] false [] (state_of self.old) (state_of self.new) }
        ensures fails { result ≡ is_to_fail (state_of self.old) }
        ensures next { self.new.next ≡ self.old.next }
        ensures handles { self.new.handles ≡ self.old.handles }
        ensures counted { self.new.planned.calls < last_call
            → own_since self.new.planned.plan self.new.planned.history < self.new.planned.calls }
        ensures may_rise { IsTrue result → still self.new.failures.calls + 1 ≤ self.new.failures.spare }
    {
        self.planned.begin();
        self.planned.keeps_plan();
        self.failures.begin()
    }

    // Takes down the event of the call that has begun.
    fn observe(&mut self, seen: Seen) -> Result<(), AllocError>
        requires counted { self.old.planned.calls < last_call
            → own_since self.old.planned.plan self.old.planned.history < self.old.planned.calls }
        requires may_come { IsTrue (may_come self.old.planned.history (event_seen seen)) }
        ensures ok { OnOk result (state_of self.new
            ≡ record (state_of self.old) { world = record { history = event_seen seen ∷ (state_of self.old).world.history; handles = (state_of self.old).world.handles } }) }
        ensures err { OnErr result (state_of self.new ≡ state_of self.old) }
        ensures next { self.new.next ≡ self.old.next }
        ensures handles { self.new.handles ≡ self.old.handles }
        ensures listed { self.new.listed ≡ self.old.listed }
        ensures failures { self.new.failures ≡ self.old.failures }
    {
        self.planned.observe(seen)
    }

    fn list_now(&mut self, alloc: Global, folder: &str) -> Result<Listed, CallFault>
        ensures { ListCalls folder.now result (state_of self.old) (state_of self.new) }
    {
        let fails = self.begin();
        // Room comes first, so that each folder that was listed is told.
        let Ok(name) = Text::from_str(alloc, folder) else {
            return Err(CallFault::Memory);
        };
        if self.listed.reserve(1).is_err() {
            return Err(CallFault::Memory);
        }
        if fails {
            let Ok(folder) = Text::from_str(alloc, folder) else {
                return Err(CallFault::Memory);
            };
            if self.observe(Seen::Unlisted(folder)).is_err() {
                return Err(CallFault::Memory);
            }
            self.failures.raise();
            self.listed.push_front_reserved(name);
            return Err(CallFault::Failed);
        }
        let world = self.planned.world();
        if !world.is_folder(folder) {
            self.listed.push_front_reserved(name);
            return Ok(Listed::Gone);
        }
        let Ok(items) = world.list(alloc, folder) else {
            return Err(CallFault::Memory);
        };
        self.listed.push_front_reserved(name);
        Ok(Listed::Items { items, unnamed: 0 })
    }

    fn open_now(&mut self, alloc: Global, path: &str) -> Result<Opened, CallFault>
        ensures calls { OpenFileCalls path.now result (state_of self.old) (state_of self.new) }
        ensures size { IfOk result IsSize }
    {
        if self.begin() {
            let Ok(path) = Text::from_str(alloc, path) else {
                return Err(CallFault::Memory);
            };
            if self.observe(Seen::Miss(path)).is_err() {
                return Err(CallFault::Memory);
            }
            self.failures.raise();
            return Err(CallFault::Failed);
        }
        let world = self.planned.world();
        let Some(file) = world.file_at(path) else {
            if world.is_folder(path) {
                return Ok(Opened::NotAFile);
            }
            return Ok(Opened::Gone);
        };
        let size = world.bytes(file).len() as u64;
        match self.hand_out(file) {
            Ok(handle) => Ok(Opened::File { handle, size }),
            Err(_) => Err(CallFault::Memory),
        }
    }

    // Looks at the file, and gives it a handle. When all numbers were given there is no memory for a further one.
    fn hand_out(&mut self, file: u32) -> Result<Handle, AllocError>
        requires counted { self.old.planned.calls < last_call
            → own_since self.old.planned.plan self.old.planned.history < self.old.planned.calls }
        requires named { IsTrue (has_name (names self.old.planned.history) file) }
        ensures ok { IfOk result (λ handle. state_of self.new
            ≡ record (state_of self.old) { world = record { history = look file ∷ (state_of self.old).world.history; handles = (handle.0, file) ∷ (state_of self.old).world.handles } }) }
        ensures is_new { IfOk result (λ handle. file_of (state_of self.old).world.handles handle.0 ≡ None) }
        ensures err { OnErr result (state_of self.new ≡ state_of self.old) }
    {
        let Some(next) = self.next.checked_add(1) else {
            return Err(AllocError);
        };
        let handle = self.next;
        self.handles.reserve(1)?;
        self.observe(Seen::Look(file))?;
        self.next = next;
        self.handles.push_front_reserved(Open { handle, file });
        Ok(Handle(handle))
    }

    fn read_now(&mut self, handle: Handle, offset: u64, buf: &mut [u8]) -> Result<usize, Failed>
        ensures within { IfOk result (λ count. count ≤ length buf.new) }
        ensures calls { ReadAtCalls handle.0 offset buf.new result (state_of self.old) (state_of self.new) }
    {
        let fails = self.begin();
        self.widest = self.widest.max(buf.len() as u64);
        if fails {
            self.failures.raise();
            return Err(Failed);
        }
        let file = file_of(&self.handles, handle.0);
        let count = read_at(self.planned.world().bytes_if(file), offset, buf);
        self.taken = self.taken.saturating_add(count as u64);
        Ok(count)
    }

    fn close_now(&mut self, handle: Handle)
        ensures { CloseCalls handle.0 (state_of self.old) (state_of self.new) }
    {
        let _fails = self.begin();
        handles::close(&mut self.handles, handle.0);
    }
}

impl Tree for MemTree {
    ghost use Rattle.mem_world.specs.MemTree.{state_of, tree_meaning};
    ghost use Rattle.mem_world.specs.TreeTold.{bound_of, told_world, told_plan, tells_lawful, tells_followed};

    ghost meaning = { tree_meaning };

    fn list(&mut self, alloc: Global, folder: &str) -> Result<Listed, CallFault>
        ensures history { Told (Lists folder.now result) (told_world (state_of self.old)) (told_world (state_of self.new)) }
        ensures cause { HasCause result (state_of self.old).faults (state_of self.new).faults }
        ensures nameless { (tree_meaning).nameless self.new ≡ nameless_after result ((tree_meaning).nameless self.old) }
        ensures taken { (state_of self.new).taken ≡ (state_of self.old).taken }
        ensures widest { Some (state_of self.new).widest ≡ Some (state_of self.old).widest }
        ensures listed { Some (state_of self.new).listed ≡ listed_after folder.now result (Some (state_of self.old).listed) }
        ensures plan { told_plan (state_of self.new) ≡ told_plan (state_of self.old) }
        ensures bound { Some (bound_of (state_of self.new)) ≡ Some (bound_of (state_of self.old)) }
        ensures calls { ListCalls folder.now result (state_of self.old) (state_of self.new) }
    {
        self.list_now(alloc, folder)
    }

    fn open_file(&mut self, alloc: Global, path: &str) -> Result<Opened, CallFault>
        ensures history { Told (Opens path.now result) (told_world (state_of self.old)) (told_world (state_of self.new)) }
        ensures size { IfOk result IsSize }
        ensures cause { HasCause result (state_of self.old).faults (state_of self.new).faults }
        ensures nameless { (tree_meaning).nameless self.new ≡ (tree_meaning).nameless self.old }
        ensures taken { (state_of self.new).taken ≡ (state_of self.old).taken }
        ensures widest { Some (state_of self.new).widest ≡ Some (state_of self.old).widest }
        ensures listed { Some (state_of self.new).listed ≡ Some (state_of self.old).listed }
        ensures plan { told_plan (state_of self.new) ≡ told_plan (state_of self.old) }
        ensures bound { Some (bound_of (state_of self.new)) ≡ Some (bound_of (state_of self.old)) }
        ensures calls { OpenFileCalls path.now result (state_of self.old) (state_of self.new) }
    {
        self.open_now(alloc, path)
    }

    fn read_at(&mut self, handle: Handle, offset: u64, buf: &mut [u8]) -> Result<usize, Failed>
        ensures within { IfOk result (λ count. count ≤ length buf.new) }
        ensures history { Told (Reads handle.0 offset buf.new result) (told_world (state_of self.old)) (told_world (state_of self.new)) }
        ensures cause { HasOneCause result (state_of self.old).faults (state_of self.new).faults }
        ensures nameless { (tree_meaning).nameless self.new ≡ (tree_meaning).nameless self.old }
        ensures taken { (state_of self.new).taken ≡ taken_after result (state_of self.old).taken }
        ensures widest { Some (state_of self.new).widest ≡ widest_after (length buf.new) (Some (state_of self.old).widest) }
        ensures listed { Some (state_of self.new).listed ≡ Some (state_of self.old).listed }
        ensures plan { told_plan (state_of self.new) ≡ told_plan (state_of self.old) }
        ensures bound { Some (bound_of (state_of self.new)) ≡ Some (bound_of (state_of self.old)) }
        ensures calls { ReadAtCalls handle.0 offset buf.new result (state_of self.old) (state_of self.new) }
    {
        self.read_now(handle, offset, buf)
    }

    fn close(&mut self, handle: Handle)
        ensures history { Told (Closes handle.0) (told_world (state_of self.old)) (told_world (state_of self.new)) }
        ensures cause { (state_of self.new).faults ≡ (state_of self.old).faults }
        ensures nameless { (tree_meaning).nameless self.new ≡ (tree_meaning).nameless self.old }
        ensures taken { (state_of self.new).taken ≡ (state_of self.old).taken }
        ensures widest { Some (state_of self.new).widest ≡ Some (state_of self.old).widest }
        ensures listed { Some (state_of self.new).listed ≡ Some (state_of self.old).listed }
        ensures plan { told_plan (state_of self.new) ≡ told_plan (state_of self.old) }
        ensures bound { Some (bound_of (state_of self.new)) ≡ Some (bound_of (state_of self.old)) }
        ensures calls { CloseCalls handle.0 (state_of self.old) (state_of self.new) }
    {
        self.close_now(handle)
    }

    ghost use Rattle.std.proofs.Common.{arith};

    ghost lawful = { λ tree. tells_lawful (state_of tree) tree.lawful };

    ghost followed = { λ tree. tells_followed (state_of tree) tree.followed };

    ghost in_range = { λ tree. tree.counted };

    ghost within_bound = { λ tree. Prim.omega arith };
}
