//! What one fiber run does.
ghost use Rattle.std.specs.Prelude.{◌≡◌, IfOk, OnOk, slice_get};
ghost use Rattle.ec_core.specs.declared.code.Instr.TheVariants.{PrintSync};
ghost use Rattle.ec_core.specs.Fiber.{answer_of, caller_of, cells_at, does, ends, ends_function, one, runs_fiber, suits};

use crate::code::{Code, Function, Instr};
use crate::eu::Eu;
use crate::message::{Back, Entry, Message};
use ec_base::{List, NoMemory, Text, Value, format_values};
use std::alloc::Global;

fn is_end(x: &Instr) -> bool
    ensures { result ≡ ends x.now }
{
    match x {
        Instr::EndFunction(_) => true,
        Instr::EndFiber => true,
        _ => false,
    }
}

impl Eu {
    fn print(
        &mut self,
        alloc: Global,
        me: u32,
        frame: u64,
        string: &Text,
        cells: &[u32],
        slot: u32,
    ) -> Result<(), NoMemory>
        ensures { OnOk result (self.new ≡ one me frame (PrintSync string.now cells.now slot) self.old) }
    {
        let numbers = self.ints(alloc, frame, cells)?;
        let bytes = format_values(alloc, string.as_slice(), numbers.as_slice())?;
        let back = Back {
            node: me,
            frame,
            cell: None,
            slot,
        };
        self.say(Message::Work {
            node: 0,
            entry: Entry::Print { bytes, back },
        })
    }

    /// Where a frame's results go, as a message with these values.
    fn answer_of(
        &self,
        alloc: Global,
        frame: u64,
        values: List<Value>,
    ) -> Result<Option<Message>, NoMemory>
        ensures { IfOk result (λ o. o ≡ answer_of (caller_of frame self.now) values) }
    {
        match self.frames.get(frame as usize) {
            None => Ok(None),
            Some(f) => match &f.caller {
                None => Ok(None),
                Some(c) => {
                    let cells = List::from_slice(alloc, c.cells.as_slice())?;
                    Ok(Some(Message::Work {
                        node: c.node,
                        entry: Entry::Fill {
                            frame: c.frame,
                            slot: c.slot,
                            cells,
                            values,
                        },
                    }))
                }
            },
        }
    }

    fn end_function(&mut self, alloc: Global, frame: u64, cells: &[u32]) -> Result<(), NoMemory>
        ensures { OnOk result (self.new ≡ ends_function frame cells.now self.old) }
    {
        let values = self.cells(alloc, frame, cells)?;
        match self.answer_of(alloc, frame, values)? {
            None => Ok(()),
            Some(answer) => {
                self.say(answer)?;
                self.say(Message::EndFrame { frame })?;
                self.end_frame(alloc, frame);
                Ok(())
            }
        }
    }

    /// One instruction of a frame.
    fn one(&mut self, alloc: Global, me: u32, frame: u64, x: &Instr) -> Result<(), NoMemory>
        ensures { OnOk result (self.new ≡ one me frame x.now self.old) }
    {
        match x {
            Instr::Const(d, k) => {
                self.put(frame, *d, Value::Int(*k));
                Ok(())
            }
            Instr::Copy(d, a) => {
                let value = self.cell(frame, *a);
                self.put(frame, *d, value);
                Ok(())
            }
            Instr::Add(d, a, b) => {
                let sum = self.int(frame, *a).wrapping_add(self.int(frame, *b));
                self.put(frame, *d, Value::Int(sum));
                Ok(())
            }
            Instr::Sub(d, a, b) => {
                let difference = self.int(frame, *a).wrapping_sub(self.int(frame, *b));
                self.put(frame, *d, Value::Int(difference));
                Ok(())
            }
            Instr::Mul(d, a, b) => {
                let product = self.int(frame, *a).wrapping_mul(self.int(frame, *b));
                self.put(frame, *d, Value::Int(product));
                Ok(())
            }
            Instr::InitSync(slot, count, reset, fiber) => self.say(Message::Init {
                frame,
                slot: *slot,
                count: *count,
                reset: *reset,
                fiber: *fiber,
            }),
            Instr::PrintSync(string, cells, slot) => {
                self.print(alloc, me, frame, string, cells.as_slice(), *slot)
            }
            Instr::EndFunction(cells) => self.end_function(alloc, frame, cells.as_slice()),
            Instr::EndFiber => Ok(()),
        }
    }

    fn does(&mut self, alloc: Global, me: u32, frame: u64, instrs: &[Instr]) -> Result<(), NoMemory>
        ensures { OnOk result (self.new ≡ does me frame instrs.now self.old) }
    {
        for x in instrs {
            self.one(alloc, me, frame, x)?;
            if is_end(x) {
                return Ok(());
            }
        }
        Ok(())
    }

    /// Whether a frame is live, with as many cells and results as this function.
    fn suits(&self, frame: u64, f: &Function) -> bool
        ensures { result ≡ suits f.now (slice_get self.now.frames frame) }
    {
        match self.frames.get(frame as usize) {
            None => false,
            Some(x) => {
                let results = match &x.caller {
                    None => 0,
                    Some(c) => c.cells.len(),
                };
                x.live && x.cells.len() == f.cells as usize && results == f.results as usize
            }
        }
    }

    pub fn run_fiber(
        &mut self,
        alloc: Global,
        code: &Code,
        me: u32,
        frame: u64,
        fiber: u32,
    ) -> Result<(), NoMemory>
        ensures { OnOk result (self.new ≡ runs_fiber code.now me frame fiber self.old) }
    {
        let Some(x) = self.frames.get(frame as usize) else {
            return Ok(());
        };
        let Some(number) = x.function else {
            return Ok(());
        };
        let Some(f) = code.functions.get(number as usize) else {
            return Ok(());
        };
        if !self.suits(frame, f) {
            return Ok(());
        }
        match f.fibers.get(fiber as usize) {
            None => Ok(()),
            Some(fiber) => self.does(alloc, me, frame, fiber.instrs.as_slice()),
        }
    }
}
