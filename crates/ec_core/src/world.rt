//! The world of one run.
ghost use Rattle.std.specs.Prelude.{◌≡◌, ◌≤◌, ◌+◌, ◌↔◌, false, IfOk, OnOk, IsTrue};
ghost use Rattle.ec_core.specs.Step.{SteppedIn, enabled, IsEnabledExactly};
ghost use Rattle.std.specs.Bool.{OnFalse};
ghost use Rattle.ec_core.specs.Run.{start, output, handled, HasEnded, IsResult};
ghost use Rattle.ec_core.specs.Rooted.{IsRooted};

use crate::choice::Choice;
use crate::code::Code;
use crate::node::NotEnabled;
use crate::nodes::Nodes;
use ec_base::{Fail, MAX_NODES, NoMemory, Text};
use std::alloc::Global;
use std::marker::Model;

/// A world: its nodes, and whether a step of it has wanted memory. A failed world makes no more steps.
#[derive(Drop)]
pub struct World {
    nodes: Nodes,
    failed: bool,
}

impl Model for World {
    ghost use Rattle.std.specs.Prelude.{◌<◌, length};
    ghost use Rattle.std.specs.Bool.{OnFalse};
    ghost use Rattle.ec_core.specs.Step.{Machine};
    ghost use Rattle.ec_core.specs.Rooted.{IsRooted};

    ghost Value = { Machine };

    ghost view = { λ w. record { nodes = w.nodes; failed = w.failed } };

    ghost invariant = { λ w. (0 < length w.nodes) × OnFalse w.failed (IsRooted w.nodes) };
}

impl World {
    /// The world in which node 0 enters main with these arguments.
    pub fn start(alloc: Global, code: &Code, nodes: u32, args: &[i64]) -> Result<World, NoMemory>
        requires some { 1 ≤ nodes }
        requires few { nodes ≤ MAX_NODES }
        ensures { IfOk result (λ w. w ≡ record { nodes = start code.now nodes args.now; failed = false }) }
    {
        let nodes = Nodes::start(alloc, code, nodes, args)?;
        Ok(World {
            nodes,
            failed: false,
        })
    }

    /// One step, where the choice is enabled. Want of memory fails the world.
    #[tactic(auto, using(crate::proofs::Handled::handled_more, crate::proofs::Roots::Kept::step_keeps_rooted))]
    pub fn step(&mut self, alloc: Global, code: &Code, c: Choice) -> Result<(), Fail<NotEnabled>>
        ensures step { SteppedIn code.now c self.old result self.new }
        ensures handled { OnOk result (handled self.new.nodes ≤ handled self.old.nodes + 1) }
    {
        if self.failed {
            return Err(Fail::Memory);
        }
        match self.nodes.step(alloc, code, c) {
            Ok(()) => Ok(()),
            Err(Fail::Refused(NotEnabled)) => Err(Fail::Refused(NotEnabled)),
            Err(Fail::Memory) => {
                self.failed = true;
                Err(Fail::Memory)
            }
        }
    }

    /// A world that hasn't failed is rooted.
    pub fn rooted(&self)
        ensures { OnFalse self.now.failed (IsRooted self.now.nodes) }
    {
        let _ = &self.nodes;
    }

    /// The greatest number of messages that a unit has handled.
    pub fn handled(&self) -> u64
        ensures { result ≡ handled self.now.nodes }
    {
        self.nodes.handled()
    }

    /// Whether a choice has a step.
    pub fn enabled(&self, c: Choice) -> bool
        ensures { result ≡ enabled c self.now.nodes }
    {
        self.nodes.enabled(c)
    }

    /// What has been printed.
    pub fn output(&self) -> &Text
        ensures { result.now ≡ output self.now.nodes }
    {
        self.nodes.output()
    }

    /// What main returned, where the root's slot has been filled.
    pub fn result(&self) -> Option<i64>
        ensures { IsResult result self.now.nodes }
    {
        if self.ended() {
            Some(self.nodes.answer())
        } else {
            None
        }
    }

    /// Whether the root's slot has been filled.
    pub fn ended(&self) -> bool
        ensures { IsTrue result ↔ HasEnded self.now.nodes }
    {
        self.nodes.fillings() > 0
    }
}

/// A choice is enabled exactly where it has a step.
pub fn enabled_exactly()
    ensures { IsEnabledExactly }
{}
