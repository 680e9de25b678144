// A life of the agent, event by event.
ghost use Rattle.std.specs.Prelude.{◌≡◌, ◌<◌, ℕ, List, [], ◌∷◌, length, Option, Some, None, IfOk, IfErr, IfSome, OnOk};
ghost use Rattle.lifetimes.specs.Inner.Life.{AreFew, CameTo, Cant, IsLifeAt, IsReadyLife, course_of};
ghost use Rattle.lifetimes.specs.declared.event.Event.{Event};
ghost use Rattle.mem_world.specs.MemDisk.{seen_of};
ghost use Rattle.outside.specs.declared.disk.DiskFile.{DiskFile};
ghost use Rattle.pipeline.specs.MadeOf.{HasRules};
ghost use Rattle.standing.specs.AreRules.{AreRules};
ghost use Rattle.standing.specs.Rules.{Rules};

use crate::opening::{open, open_stopped};
use crate::polling::{poll_stopped, poll_through};
use crate::stopping::Stopping;
use crate::{Ending, Event, ScriptFault};
use mem_world::{MemDisk, MemTree, StepFault, WorldStep};
use poll_core::Session;
use std::alloc::{AllocError, Global};

// The world, the disk, and the agent, where one runs.
#[derive(Drop)]
pub(crate) struct Life {
    pub(crate) tree: MemTree,
    pub(crate) disk: MemDisk,
    pub(crate) session: Option<Session>,
    // The stop that is set for the next poll or opening.
    pub(crate) stopping: Option<Stopping>,
    pub(crate) polls: u64,
    pub(crate) stops: u64,
}

impl Life {
    // Nothing has happened yet.
    pub(crate) fn new(alloc: Global) -> Result<Life, AllocError>
        ensures ready { IfOk result IsReadyLife }
        ensures begins { IfOk result (λ life. (rules : Rules) → AreRules rules → IsLifeAt rules [] life) }
        ensures tree { IfOk result (λ life. (course_of life).history ≡ []) }
        ensures disk { IfOk result (λ life. (file : DiskFile) → seen_of life.disk file ≡ []) }
        ensures session { IfOk result (λ life. life.session ≡ None) }
    {
        Ok(Life {
            tree: MemTree::new(alloc)?,
            disk: MemDisk::new(alloc)?,
            session: None,
            stopping: None,
            polls: 0,
            stops: 0,
        })
    }

    // The event at this place of the script happens.
    pub(crate) fn come(
        &mut self,
        alloc: Global,
        settings: &[u8],
        event: &Event,
        at: usize,
    ) -> Result<(), ScriptFault>
        requires { IsReadyLife self.old }
        ensures ready { OnOk result (IsReadyLife self.new) }
        ensures came { OnOk result ((rules : Rules) (events : List Event) → AreFew events → HasRules settings.now rules
            → IsLifeAt rules events self.old → CameTo rules events event.now self.old self.new) }
        ensures cant { IfErr result (λ fault. (rules : Rules) (events : List Event) → HasRules settings.now rules
            → IsLifeAt rules events self.old → Cant settings.now at event.now (course_of self.old) fault) }
    {
        match event {
            Event::World(step) => {
                self.play(alloc, step, at)?;
                Ok(())
            }
            Event::During { calls, step } => {
                self.plan(alloc, *calls, step)?;
                Ok(())
            }
            Event::Poll => {
                self.poll(alloc, at)?;
                Ok(())
            }
            Event::Stop { calls, outcome } => {
                self.stop(*calls, *outcome);
                Ok(())
            }
            Event::FailDisk { call } => {
                self.fail_disk(alloc, *call)?;
                Ok(())
            }
            Event::FailTree { call } => {
                self.fail_tree(alloc, *call)?;
                Ok(())
            }
            Event::Reopen => {
                self.reopen(alloc, settings, at)?;
                Ok(())
            }
        }
    }

    // What a script ends with.
    pub(crate) fn ending(self, marks: Vec<u64>) -> Ending
        ensures { result ≡ record { tree = self.tree; disk = self.disk; polls = self.polls; stops = self.stops; marks = marks } }
    {
        let Life {
            tree,
            disk,
            polls,
            stops,
            ..
        } = self;
        Ending {
            tree,
            disk,
            polls,
            stops,
            marks,
        }
    }

    fn play(&mut self, alloc: Global, step: &WorldStep, at: usize) -> Result<(), ScriptFault>
        requires { IsReadyLife self.old }
        ensures ready { OnOk result (IsReadyLife self.new) }
        ensures came { OnOk result ((rules : Rules) (events : List Event) → IsLifeAt rules events self.old
            → CameTo rules events (Event.World step.now) self.old self.new) }
        ensures cant { IfErr result (λ fault. (text : List ℕ) → Cant text at (Event.World step.now) (course_of self.old) fault) }
    {
        let step = step.copied(alloc)?;
        match self.tree.play(alloc, step) {
            Ok(()) => Ok(()),
            Err(StepFault::NotLawful) => Err(ScriptFault::NotLawful { at }),
            Err(StepFault::Memory) => Err(ScriptFault::Memory),
        }
    }

    fn plan(&mut self, alloc: Global, calls: u32, step: &WorldStep) -> Result<(), ScriptFault>
        requires { IsReadyLife self.old }
        ensures ready { OnOk result (IsReadyLife self.new) }
        ensures came { OnOk result ((rules : Rules) (events : List Event) → IsLifeAt rules events self.old
            → CameTo rules events (Event.During calls step.now) self.old self.new) }
        ensures memory { IfErr result (λ fault. fault ≡ ScriptFault.Memory) }
    {
        let step = step.copied(alloc)?;
        self.tree.later(alloc, calls, step)?;
        Ok(())
    }

    fn stop(&mut self, calls: u32, outcome: u32)
        requires { IsReadyLife self.old }
        ensures ready { IsReadyLife self.new }
        ensures came { (rules : Rules) (events : List Event) → IsLifeAt rules events self.old
            → CameTo rules events (Event.Stop calls outcome) self.old self.new }
    {
        self.stopping = Some(Stopping { calls, outcome });
    }

    fn fail_disk(&mut self, alloc: Global, call: u32) -> Result<(), ScriptFault>
        requires { IsReadyLife self.old }
        ensures ready { OnOk result (IsReadyLife self.new) }
        ensures came { OnOk result ((rules : Rules) (events : List Event) → IsLifeAt rules events self.old
            → CameTo rules events (Event.FailDisk call) self.old self.new) }
        ensures memory { IfErr result (λ fault. fault ≡ ScriptFault.Memory) }
    {
        self.disk.fail(alloc, call)?;
        Ok(())
    }

    fn fail_tree(&mut self, alloc: Global, call: u32) -> Result<(), ScriptFault>
        requires { IsReadyLife self.old }
        ensures ready { OnOk result (IsReadyLife self.new) }
        ensures came { OnOk result ((rules : Rules) (events : List Event) → IsLifeAt rules events self.old
            → CameTo rules events (Event.FailTree call) self.old self.new) }
        ensures memory { IfErr result (λ fault. fault ≡ ScriptFault.Memory) }
    {
        self.tree.fail(alloc, call)?;
        Ok(())
    }

    fn poll(&mut self, alloc: Global, at: usize) -> Result<(), ScriptFault>
        requires { IsReadyLife self.old }
        ensures ready { OnOk result (IsReadyLife self.new) }
        ensures came { OnOk result ((rules : Rules) (events : List Event) → AreFew events → IsLifeAt rules events self.old
            → CameTo rules events Event.Poll self.old self.new) }
        ensures cant { IfErr result (λ fault. (text : List ℕ) → Cant text at Event.Poll (course_of self.old) fault) }
    {
        match self.session.take() {
            None => Err(ScriptFault::NotOpen { at }),
            Some(session) => {
                self.polls = self.polls.saturating_add(1);
                match self.stopping.take() {
                    None => {
                        self.session = poll_through(
                            alloc,
                            &mut self.tree,
                            &mut self.disk,
                            session,
                        )?;
                        Ok(())
                    }
                    Some(stopping) => {
                        self.stops = self.stops.saturating_add(1);
                        poll_stopped(alloc, &mut self.tree, &mut self.disk, session, stopping)?;
                        Ok(())
                    }
                }
            }
        }
    }

    // The steps and the failures of the tree that wait are dropped.
    fn reopen(&mut self, alloc: Global, settings: &[u8], at: usize) -> Result<(), ScriptFault>
        requires { IsReadyLife self.old }
        ensures ready { OnOk result (IsReadyLife self.new) }
        ensures came { OnOk result ((rules : Rules) (events : List Event) → AreFew events → HasRules settings.now rules
            → IsLifeAt rules events self.old → CameTo rules events Event.Reopen self.old self.new) }
        ensures cant { IfErr result (λ fault. (rules : Rules) (events : List Event) → HasRules settings.now rules
            → IsLifeAt rules events self.old → Cant settings.now at Event.Reopen (course_of self.old) fault) }
    {
        if self.session.is_some() {
            return Err(ScriptFault::AlreadyOpen { at });
        }
        self.tree.clear_plans();
        match self.stopping.take() {
            None => {
                let opened = open(alloc, &mut self.disk, settings)?;
                self.session = opened;
                Ok(())
            }
            Some(stopping) => {
                self.stops = self.stops.saturating_add(1);
                open_stopped(alloc, &mut self.disk, settings, stopping)?;
                Ok(())
            }
        }
    }
}
