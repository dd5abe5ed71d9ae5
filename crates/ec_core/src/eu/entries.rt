//! What entries and spawned fibers do.
ghost use Rattle.std.specs.Prelude.{◌≡◌, IfOk, OnOk, slice_get};
ghost use Rattle.ec_core.specs.Entry.{called, entry, frame_for, spawned_step};
ghost use Rattle.ec_core.specs.Fiber.{says};
ghost use Rattle.ec_core.specs.Queues.{Took};
ghost use Rattle.ec_core.specs.declared.message.Message.TheVariants.{Sync};

use crate::code::{Code, Function};
use crate::eu::{Caller, Eu, Frame};
use crate::message::{Call, Entry, Message};
use crate::queue::grow;
use ec_base::{NoMemory, Value};
use std::alloc::Global;

/// The frame of a call.
fn frame_for(f: &Function, call: Call) -> Result<Frame, NoMemory>
    ensures { IfOk result (λ x. x ≡ frame_for f.now call) }
{
    let mut cells = call.args;
    grow(&mut cells, f.cells as usize, Value::Int(0))?;
    Ok(Frame {
        function: Some(call.function),
        live: true,
        birth: call.birth,
        caller: Some(Caller {
            node: call.node,
            frame: call.frame,
            cells: call.cells,
            slot: call.slot,
        }),
        cells,
    })
}

impl Eu {
    fn enter(&mut self, alloc: Global, code: &Code, me: u32, call: Call) -> Result<(), NoMemory>
        ensures { OnOk result (self.new ≡ called code.now me call self.old) }
    {
        let Some(f) = code.functions.get(call.function as usize) else {
            return Ok(());
        };
        if call.args.len() != f.params as usize || call.cells.len() != f.results as usize {
            return Ok(());
        }
        let frame = self.frames.len() as u64;
        self.frames.push(frame_for(f, call)?)?;
        self.run_fiber(alloc, code, me, frame, 0)
    }

    fn sync(&mut self, node: u32, frame: u64, slot: u32) -> Result<(), NoMemory>
        ensures { OnOk result (self.new ≡ says (Sync node frame slot) self.old) }
    {
        self.say(Message::Sync { node, frame, slot })
    }

    /// The effect of an entry. After want of memory the unit may hold a part of it.
    pub fn entry(&mut self, alloc: Global, code: &Code, me: u32, x: Entry) -> Result<(), NoMemory>
        ensures { OnOk result (self.new ≡ entry code.now me x self.old) }
    {
        match x {
            Entry::Start {
                frame,
                fiber,
                slot: _,
                filling: _,
            } => self.run_fiber(alloc, code, me, frame, fiber),
            Entry::Enter { call } => self.enter(alloc, code, me, call),
            Entry::Fill {
                frame,
                slot,
                cells,
                values,
            } => {
                if !self.lives(frame) {
                    return Ok(());
                }
                self.put_all(frame, cells.as_slice(), values.as_slice());
                self.sync(me, frame, slot)
            }
            Entry::Print { bytes, back } => {
                self.output.append(bytes.as_slice())?;
                self.sync(back.node, back.frame, back.slot)
            }
        }
    }

    /// Runs the oldest spawned fiber, where one waits, and tells whether one did.
    pub fn spawned(&mut self, alloc: Global, code: &Code, me: u32) -> Result<bool, NoMemory>
        ensures { IfOk result (λ took. Took took (spawned_step code.now me self.old) self.old self.new) }
    {
        match self.spawned.pop() {
            None => Ok(false),
            Some(x) => {
                self.run_fiber(alloc, code, me, x.frame, x.fiber)?;
                Ok(true)
            }
        }
    }
}
