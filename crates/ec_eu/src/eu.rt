//! The execution unit.
ghost use Rattle.std.specs.Option.{option_copied};
ghost use Rattle.std.specs.Prelude.{◌≡◌, ◌<◌, IfOk, OnOk};
ghost use Rattle.ec_eu.specs.Instructions.{activation_of};
ghost use Rattle.ec_eu.specs.State.{new_exec, says};
ghost use Rattle.ec_queue.specs.Queues.{TookOldest, has_some, taken};

use crate::state::{Activation, Spawned};
use ec_base::{NoMemory, Text, Trap};
use ec_cells::Node;
use ec_code::Message;
use ec_queue::Queue;
use std::alloc::Global;
use std::marker::Model;

mod accesses;
mod calls;
mod cells;
mod copies;
mod entries;
mod fibers;
mod instructions;
mod numbers;

/// An execution unit. Once a step of it has wanted memory it has failed: its memory, outbox and spawned fibers may hold a part of
/// that step, and every later step wants memory.
#[derive(Drop)]
pub struct Eu {
    nodes: u32,
    memory: Node,
    activations: Vec<Option<Activation>>,
    spawned: Queue<Spawned>,
    outbox: Queue<Message>,
    output: Text,
    trap: Option<Trap>,
    failed: bool,
}

impl Model for Eu {
    ghost use Rattle.ec_eu.specs.State.{Exec};
    ghost use Rattle.std.specs.Prelude.{◌<◌};

    ghost Value = { Exec };

    ghost view = { λ u. record {
      nodes = u.nodes;
      memory = u.memory;
      activations = u.activations.items;
      spawned = u.spawned;
      outbox = u.outbox;
      output = u.output;
      trap = u.trap;
      failed = u.failed;
    } };

    ghost invariant = { λ u. 0 < u.nodes };
}

impl Eu {
    /// The unit of a node of so many, with frame 0 made, which has one cell.
    pub fn new(alloc: Global, node: u32, nodes: u32) -> Result<Eu, NoMemory>
        requires { 0 < nodes }
        ensures { IfOk result (λ u. u ≡ new_exec node nodes) }
    {
        let mut memory = Node::new(alloc, node);
        memory.make_frame(alloc, 1, None)?;
        let mut activations = Vec::new(alloc);
        activations.push(None)?;
        Ok(Eu {
            nodes,
            memory,
            activations,
            spawned: Queue::new(alloc),
            outbox: Queue::new(alloc),
            output: Text::from_vec(Vec::new(alloc)),
            trap: None,
            failed: false,
        })
    }

    /// Its frames, blocks and births.
    pub fn node(&self) -> &Node
        ensures { result.now ≡ self.now.memory }
    {
        &self.memory
    }

    /// What it has printed: on node 0 the program's output.
    pub fn output(&self) -> &Text
        ensures { result.now ≡ self.now.output }
    {
        &self.output
    }

    /// The trap of a step, where one has trapped.
    pub fn trap(&self) -> Option<Trap>
        ensures { result ≡ self.now.trap }
    {
        self.trap
    }

    /// Whether a spawned fiber waits.
    pub fn waiting(&self) -> bool
        ensures { result ≡ has_some self.now.spawned }
    {
        self.spawned.has_some()
    }

    /// Takes the oldest message of the outbox; none where it is empty.
    pub fn take_out(&mut self) -> Option<Message>
        ensures outbox { TookOldest result (taken self.old.outbox) self.old.outbox self.new.outbox }
        ensures rest { self.new ≡ record self.old { outbox = self.new.outbox } }
    {
        self.outbox.pop()
    }

    /// Whether the outbox holds a message.
    pub fn has_out(&self) -> bool
        ensures { result ≡ has_some self.now.outbox }
    {
        self.outbox.has_some()
    }

    fn say(&mut self, message: Message) -> Result<(), NoMemory>
        ensures { OnOk result (self.new ≡ says message self.old) }
    {
        self.outbox.push(message)?;
        Ok(())
    }

    /// What a frame was made for; none where it has ended, and for frame 0.
    fn activation(&self, frame: u64) -> Option<&Activation>
        ensures { option_copied result ≡ activation_of frame self.now }
    {
        match self.activations.get(frame as usize) {
            None => None,
            Some(None) => None,
            Some(Some(a)) => Some(a),
        }
    }
}
