//! The world of one run.
ghost use Rattle.std.specs.Prelude.{◌≡◌, ◌<◌, ◌≤◌, ◌+◌, ◌^◌, false, length, IfOk, OnOk};
ghost use Rattle.ec_base.specs.declared.limits.TheConstants.{MAX_NODES};
ghost use Rattle.ec_world.specs.Answers.{SteppedIn};
ghost use Rattle.ec_world.specs.Run as run;
ghost use Rattle.ec_world.specs.Step.{IsEnabledExactly, enabled};

use crate::choice::Choice;
use crate::node::NotEnabled;
use crate::nodes::Nodes;
use ec_base::{Fail, MAX_NODES, NoMemory, Text, Trap};
use ec_code::Code;
use std::alloc::Global;
use std::marker::Model;

/// A world: its nodes, and whether a step of it has wanted memory. A failed world makes no more steps.
#[derive(Drop)]
pub struct World {
    nodes: Nodes,
    failed: bool,
}

impl Model for World {
    ghost use Rattle.std.specs.Prelude.{◌<◌, ◌≤◌, length};
    ghost use Rattle.ec_base.specs.declared.limits.TheConstants.{MAX_NODES};
    ghost use Rattle.ec_world.specs.Answers.{Seen};

    ghost Value = { Seen };

    ghost view = { λ w. record { machine = w.nodes; failed = w.failed } };

    ghost invariant = { λ w. (0 < length w.nodes.nodes) × (length w.nodes.nodes ≤ MAX_NODES) };
}

impl World {
    /// The world in which node 0 of so many enters main with these arguments.
    pub fn start(alloc: Global, code: &Code, nodes: u32, args: &[i64]) -> Result<World, NoMemory>
        requires some { 0 < nodes }
        requires few { nodes ≤ MAX_NODES }
        ensures { IfOk result (λ w. w ≡ record { machine = run.start code.now nodes args.now; failed = false }) }
    {
        let nodes = Nodes::start(alloc, code, nodes, args)?;
        Ok(World {
            nodes,
            failed: false,
        })
    }

    /// One step, where the choice is enabled. Want of memory fails the world.
    #[tactic(auto, using(crate::proofs::Handled::handled_more))]
    pub fn step(&mut self, alloc: Global, code: &Code, c: Choice) -> Result<(), Fail<NotEnabled>>
        requires { run.handled self.old.machine.nodes < 2 ^ 32 }
        ensures step { SteppedIn code.now c self.old result self.new }
        ensures handled { OnOk result (run.handled self.new.machine.nodes ≤ run.handled self.old.machine.nodes + 1) }
    {
        if self.failed {
            return Err(Fail::Memory);
        }
        match self.nodes.step(alloc, code, c) {
            Ok(()) => Ok(()),
            Err(Fail::Refused(NotEnabled)) => Err(Fail::Refused(NotEnabled)),
            Err(Fail::Memory) => {
                self.failed = true;
                Err(Fail::Memory)
            }
        }
    }

    /// How many nodes it has.
    pub fn nodes(&self) -> u32
        ensures { result ≡ length self.now.machine.nodes }
    {
        self.nodes.count() as u32
    }

    /// The greatest number of messages that a unit has handled.
    pub fn handled(&self) -> u64
        ensures { result ≡ run.handled self.now.machine.nodes }
    {
        self.nodes.handled()
    }

    /// Whether a choice has a step.
    pub fn enabled(&self, c: Choice) -> bool
        ensures { result ≡ enabled c self.now.machine.nodes }
    {
        self.nodes.enabled(c)
    }

    /// How many entries the ring holds onto which a choice puts, and 0 where it puts onto none.
    pub fn held(&self, c: Choice) -> u64
        ensures { result ≡ run.held c self.now.machine.nodes }
    {
        self.nodes.held(c) as u64
    }

    /// What has been printed.
    pub fn output(&self) -> &Text
        ensures { result.now ≡ run.output self.now.machine }
    {
        self.nodes.output()
    }

    /// What main returned, where the root's slot has been filled.
    pub fn result(&self) -> Option<i64>
        ensures { result ≡ run.result self.now.machine }
    {
        if self.ended() {
            Some(self.nodes.answer())
        } else {
            None
        }
    }

    /// Whether the root's slot has been filled.
    pub fn ended(&self) -> bool
        ensures { result ≡ run.has_ended self.now.machine }
    {
        self.nodes.ended()
    }

    /// The trap of the first step that has trapped.
    pub fn trap(&self) -> Option<Trap>
        ensures { result ≡ self.now.machine.trap }
    {
        self.nodes.trap()
    }
}

/// A choice is enabled exactly where it has a step.
pub fn enabled_exactly()
    ensures { IsEnabledExactly }
{}
