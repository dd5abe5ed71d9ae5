//! Entries and spawned fibers.
ghost use Rattle.std.specs.Prelude.{◌≡◌, length, true, Some, IfOk, IsNone, IsSome, OnOk, slice_get};
ghost use Rattle.ec_code.specs.declared.message.Entry.TheVariants.{CopyIn};
ghost use Rattle.ec_queue.specs.Queues.{has_some};
ghost use Rattle.ec_eu.specs.Answers.{Ran, RanOldest};
ghost use Rattle.ec_eu.specs.Entries as entries;
ghost use Rattle.ec_eu.specs.State.{ending};

use crate::eu::Eu;
use crate::state::{Activation, Caller, EuEnd};
use ec_base::{Block, List, NoMemory, Span, Trap, TrapKind, Value};
use ec_cells::as_int;
use ec_code::{Back, Call, Code, Entry, Function, Message};
use std::alloc::Global;

/// The element to which one is copied, and the place of that access.
#[derive(Clone, Copy)]
struct Target {
    block: Block,
    index: i64,
    at: Span,
}

impl Eu {
    fn trap_bounds(&mut self, at: Span)
        ensures { self.new ≡ entries.traps_bounds at self.old }
    {
        self.trap = Some(Trap {
            kind: TrapKind::Bounds,
            at,
        });
    }

    fn say_done(&mut self, back: Back) -> Result<(), NoMemory>
        ensures { OnOk result (self.new ≡ entries.says_done back self.old) }
    {
        self.say(Message::Sync {
            node: back.node,
            frame: back.frame,
            slot: back.slot,
        })
    }

    /// Makes the frame of a call and gives its number: its first cells are the arguments, and the others 0.
    fn make_frame(&mut self, alloc: Global, f: &Function, call: Call) -> Result<u64, NoMemory>
        requires { length call.args ≡ f.now.params }
        ensures number { IfOk result (λ n. n ≡ length self.old.memory.frames) }
        ensures ok { OnOk result (self.new ≡ entries.makes_frame f.now call self.old) }
    {
        let n = self.memory.make_frame(alloc, f.cells, call.birth)?;
        let caller = Caller {
            node: call.node,
            frame: call.frame,
            cells: call.cells,
            slot: call.slot,
        };
        self.activations.push(Some(Activation {
            function: call.function,
            caller,
        }))?;
        self.put_first(n, f.params, call.args.as_slice());
        Ok(n)
    }

    fn enter(&mut self, alloc: Global, code: &Code, call: Call) -> Result<(), NoMemory>
        ensures { OnOk result (self.new ≡ entries.entered code.now call (slice_get code.now.functions call.function) self.old) }
    {
        let Some(f) = code.functions.get(call.function as usize) else {
            return Ok(());
        };
        if call.args.len() != f.params as usize || call.cells.len() != f.results as usize {
            return Ok(());
        }
        let n = self.make_frame(alloc, f, call)?;
        self.run_fiber(alloc, code, n, 0)
    }

    fn answer_value(
        &mut self,
        alloc: Global,
        value: Option<Value>,
        at: Span,
        back: Back,
    ) -> Result<(), NoMemory>
        ensures { OnOk result (self.new ≡ entries.answers_value value at back self.old) }
    {
        let Some(value) = value else {
            self.trap_bounds(at);
            return Ok(());
        };
        let mut cells = List::new(alloc);
        if let Some(c) = back.cell {
            cells.push(c)?;
        }
        let mut values = List::new(alloc);
        values.push(value)?;
        self.say(Message::Work {
            node: back.node,
            entry: Entry::Fill {
                frame: back.frame,
                slot: back.slot,
                cells,
                values,
            },
        })
    }

    /// Answers a change of the memory, where it was made, or traps.
    fn answer_change(&mut self, changed: Option<()>, at: Span, back: Back) -> Result<(), NoMemory>
        ensures made { OnOk result (IsSome changed → self.new ≡ entries.says_done back self.old) }
        ensures refused { OnOk result (IsNone changed → self.new ≡ entries.traps_bounds at self.old) }
    {
        match changed {
            Some(()) => self.say_done(back),
            None => {
                self.trap_bounds(at);
                Ok(())
            }
        }
    }

    /// Hands the cells of an element on to the node that they are copied to.
    fn copy_out(
        &mut self,
        cells: Option<List<Value>>,
        at: Span,
        target: Target,
        back: Back,
    ) -> Result<(), NoMemory>
        ensures { OnOk result (self.new ≡ entries.copies_out cells target.block at
            (λ cells. CopyIn target.block target.index cells target.at back) self.old) }
    {
        let Some(cells) = cells else {
            self.trap_bounds(at);
            return Ok(());
        };
        self.say(Message::Work {
            node: target.block.node,
            entry: Entry::CopyIn {
                block: target.block,
                index: target.index,
                cells,
                at: target.at,
                back,
            },
        })
    }

    fn fill(
        &mut self,
        frame: u64,
        slot: u32,
        cells: &[u32],
        values: &[Value],
    ) -> Result<(), NoMemory>
        ensures { OnOk result (self.new ≡ entries.fills frame slot cells.now values.now self.old) }
    {
        if !self.memory.live(frame) {
            return Ok(());
        }
        let node = self.memory.number();
        self.put_all(frame, cells, values);
        self.say(Message::Sync { node, frame, slot })
    }

    fn does_entry(&mut self, alloc: Global, code: &Code, e: Entry) -> Result<(), NoMemory>
        ensures { OnOk result (self.new ≡ entries.entry code.now e self.old) }
    {
        match e {
            Entry::Start {
                frame,
                fiber,
                slot: _,
                filling: _,
            } => self.run_fiber(alloc, code, frame, fiber),
            Entry::Enter { call } => self.enter(alloc, code, call),
            Entry::Load {
                block,
                index,
                size,
                off,
                at,
                back,
            } => {
                let value = self.memory.load(block.number, index, size, off);
                self.answer_value(alloc, value, at, back)
            }
            Entry::Store {
                block,
                index,
                size,
                off,
                value,
                at,
                back,
            } => {
                let changed = self.memory.store(block.number, index, size, off, value);
                self.answer_change(changed, at, back)
            }
            Entry::Add {
                block,
                value,
                at,
                back,
            } => {
                let changed = self.memory.add(block.number, as_int(value));
                self.answer_change(changed, at, back)
            }
            Entry::CopyOut {
                block,
                index,
                size,
                to,
                to_index,
                at,
                at_to,
                back,
            } => {
                let cells = self.memory.element(alloc, block.number, index, size)?;
                let target = Target {
                    block: to,
                    index: to_index,
                    at: at_to,
                };
                self.copy_out(cells, at, target, back)
            }
            Entry::CopyIn {
                block,
                index,
                cells,
                at,
                back,
            } => {
                let changed = self
                    .memory
                    .put_element(block.number, index, cells.as_slice());
                self.answer_change(changed, at, back)
            }
            Entry::Fill {
                frame,
                slot,
                cells,
                values,
            } => self.fill(frame, slot, cells.as_slice(), values.as_slice()),
            Entry::Print { bytes, back } => {
                self.output.append(bytes.as_slice())?;
                self.say_done(back)
            }
        }
    }

    /// How a step ended that did what it was to do.
    fn ending(&self) -> EuEnd
        ensures { result ≡ ending self.now.trap }
    {
        match self.trap {
            None => EuEnd::Went,
            Some(trap) => EuEnd::Trapped(trap),
        }
    }

    /// The effect of an entry, and whether it trapped. Once a step has wanted memory the unit has failed: every later one wants
    /// memory, and its memory, outbox and spawned fibers may hold a part of the step that failed.
    pub fn entry(&mut self, alloc: Global, code: &Code, e: Entry) -> Result<EuEnd, NoMemory>
        ensures { Ran result (entries.entry code.now e self.old) self.old self.new }
    {
        if self.failed {
            return Err(NoMemory);
        }
        match self.does_entry(alloc, code, e) {
            Ok(()) => Ok(self.ending()),
            Err(NoMemory) => {
                self.failed = true;
                Err(NoMemory)
            }
        }
    }

    /// Runs the oldest spawned fiber, where one waits, and says whether it trapped; `entry` says what want of memory leaves.
    pub fn spawned(&mut self, alloc: Global, code: &Code) -> Result<EuEnd, NoMemory>
        requires { has_some self.old.spawned ≡ true }
        ensures { RanOldest result (entries.spawned_step code.now self.old) self.old self.new }
    {
        if self.failed {
            return Err(NoMemory);
        }
        match self.run_oldest(alloc, code) {
            Ok(()) => Ok(self.ending()),
            Err(NoMemory) => {
                self.failed = true;
                Err(NoMemory)
            }
        }
    }

    fn run_oldest(&mut self, alloc: Global, code: &Code) -> Result<(), NoMemory>
        requires { has_some self.old.spawned ≡ true }
        ensures { OnOk result (entries.spawned_step code.now self.old ≡ Some self.new) }
    {
        match self.spawned.pop() {
            None => Ok(()),
            Some(x) => self.run_fiber(alloc, code, x.frame, x.fiber),
        }
    }
}
