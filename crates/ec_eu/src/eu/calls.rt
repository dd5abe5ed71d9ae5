//! Calls, prints and ends.
ghost use Rattle.std.specs.Prelude.{◌≡◌, None, OnOk, slice_set};
ghost use Rattle.ec_eu.specs.Instructions as instructions;

use crate::eu::Eu;
use crate::state::{Activation, Spawned};
use ec_base::{List, NoMemory, Text, format_values};
use ec_code::{Call, CallPlace, Entry, Message};
use std::alloc::Global;

impl Eu {
    /// The node on which a call's frame is made.
    fn node_of(&self, n: u64, place: CallPlace) -> u32
        ensures { result ≡ instructions.node_of n place self.now }
    {
        match place {
            CallPlace::Here => self.memory.number(),
            CallPlace::Home => 0,
            CallPlace::Node(a) => self.int(n, a).rem_euclid(self.nodes as i64) as u32,
            CallPlace::Owner(a) => match self.pointer(n, a) {
                None => self.memory.number(),
                Some(block) => block.node,
            },
        }
    }

    /// Calls a function: the birth is the frame's next one.
    pub(crate) fn invoke(
        &mut self,
        alloc: Global,
        n: u64,
        function: u32,
        place: CallPlace,
        results: &[u32],
        slot: u32,
        args: &[u32],
    ) -> Result<(), NoMemory>
        ensures { OnOk result (self.new ≡ instructions.invokes n function place results.now slot args.now self.old) }
    {
        let node = self.node_of(n, place);
        let me = self.memory.number();
        let cells = List::from_slice(alloc, results)?;
        let args = self.values(alloc, n, args)?;
        let birth = Some(self.memory.next_birth(n)?);
        let call = Call {
            function,
            args,
            birth,
            node: me,
            frame: n,
            cells,
            slot,
        };
        self.say(Message::Work {
            node,
            entry: Entry::Enter { call },
        })
    }

    /// Takes away what a frame was made for.
    fn take_activation(&mut self, n: u64) -> Option<Activation>
        ensures value { result ≡ instructions.activation_of n self.old }
        ensures rest { self.new ≡ record self.old { activations = slice_set self.old.activations n None } }
    {
        match self.activations.get_mut(n as usize) {
            None => None,
            Some(a) => a.take(),
        }
    }

    /// Answers the values of cells to the frame's caller, and ends the frame. Nothing happens to a frame without a caller.
    #[tactic(auto, using(crate::proofs::Lists::none_taken))]
    pub(crate) fn end_function(
        &mut self,
        alloc: Global,
        n: u64,
        cells: &[u32],
    ) -> Result<(), NoMemory>
        ensures { OnOk result (self.new ≡ instructions.ends_function n cells.now self.old) }
    {
        let values = self.values(alloc, n, cells)?;
        let Some(a) = self.take_activation(n) else {
            return Ok(());
        };
        let caller = a.caller;
        self.say(Message::Work {
            node: caller.node,
            entry: Entry::Fill {
                frame: caller.frame,
                slot: caller.slot,
                cells: caller.cells,
                values,
            },
        })?;
        self.say(Message::EndFrame { frame: n })?;
        self.memory.end_frame(alloc, n);
        Ok(())
    }

    /// Prints a string with the numbers of cells.
    pub(crate) fn print(
        &mut self,
        alloc: Global,
        n: u64,
        string: &Text,
        cells: &[u32],
        slot: u32,
    ) -> Result<(), NoMemory>
        ensures { OnOk result (self.new ≡ instructions.prints n string.now cells.now slot self.old) }
    {
        let numbers = self.ints(alloc, n, cells)?;
        let bytes = format_values(alloc, string.as_slice(), numbers.as_slice())?;
        let back = self.back(n, None, slot);
        self.say(Message::Work {
            node: 0,
            entry: Entry::Print { bytes, back },
        })
    }

    /// Starts a fiber of a frame later.
    pub(crate) fn spawn(&mut self, n: u64, fiber: u32) -> Result<(), NoMemory>
        ensures { OnOk result (self.new ≡ instructions.spawns n fiber self.old) }
    {
        self.spawned.push(Spawned { frame: n, fiber })?;
        Ok(())
    }
}
