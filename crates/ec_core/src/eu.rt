//! The execution unit: it runs fibers.
ghost use Rattle.std.specs.Prelude.{◌≡◌, IfOk, OnOk};
ghost use Rattle.ec_core.specs.Fiber.{as_int, cell_at, cells_at, end_frame, int_at, ints_at, put, put_all, says};
ghost use Rattle.ec_core.specs.Entry.{lives, new_exec};
ghost use Rattle.ec_core.specs.Queues.{TookOldest, has_some, taken};

use crate::message::Message;
use crate::queue::Queue;
use ec_base::{Birth, List, NoMemory, Text, Value};
use std::alloc::Global;
use std::marker::Model;

mod entries;
mod fibers;

/// Where a frame's results go.
#[derive(Drop)]
pub struct Caller {
    pub node: u32,
    pub frame: u64,
    pub cells: List<u32>,
    pub slot: u32,
}

/// The frame of one activation. Frame 0 of a node has no function and no caller.
#[derive(Drop)]
pub struct Frame {
    pub function: Option<u32>,
    pub live: bool,
    pub birth: Option<Birth>,
    pub caller: Option<Caller>,
    pub cells: List<Value>,
}

/// A fiber that waits for its first run.
#[derive(Clone, Copy)]
pub struct Spawned {
    pub frame: u64,
    pub fiber: u32,
}

/// An execution unit.
#[derive(Drop)]
pub struct Eu {
    frames: Vec<Frame>,
    spawned: Queue<Spawned>,
    outbox: Queue<Message>,
    output: Text,
}

impl Model for Eu {
    ghost use Rattle.ec_core.specs.State.{Exec};

    ghost Value = { Exec };

    ghost view = { λ u. record { frames = u.frames.items; spawned = u.spawned; outbox = u.outbox; output = u.output } };
}

/// A value as a number: what is no number counts as 0.
fn as_int(value: Value) -> i64
    ensures { result ≡ as_int value }
{
    match value {
        Value::Int(n) => n,
        Value::Null => 0,
        Value::Ptr(_) => 0,
    }
}

impl Eu {
    /// A unit with frame 0 made.
    pub fn new(alloc: Global) -> Result<Eu, NoMemory>
        ensures { IfOk result (λ u. u ≡ new_exec) }
    {
        let mut cells = List::new(alloc);
        cells.push(Value::Int(0))?;
        let mut frames = Vec::new(alloc);
        frames.push(Frame {
            function: None,
            live: true,
            birth: None,
            caller: None,
            cells,
        })?;
        Ok(Eu {
            frames,
            spawned: Queue::new(alloc),
            outbox: Queue::new(alloc),
            output: Text::from_vec(Vec::new(alloc)),
        })
    }

    /// What it has printed: on node 0 the program's output.
    pub fn output(&self) -> &Text
        ensures { result.now ≡ self.now.output }
    {
        &self.output
    }

    fn lives(&self, frame: u64) -> bool
        ensures { result ≡ lives frame self.now }
    {
        match self.frames.get(frame as usize) {
            Some(f) => f.live,
            None => false,
        }
    }

    fn cell(&self, frame: u64, cell: u32) -> Value
        ensures { result ≡ cell_at frame cell self.now }
    {
        match self.frames.get(frame as usize) {
            Some(f) => match f.cells.get(cell as usize) {
                Some(value) => *value,
                None => Value::Int(0),
            },
            None => Value::Int(0),
        }
    }

    /// What a cell of a frame holds, as a number.
    pub fn int(&self, frame: u64, cell: u32) -> i64
        ensures { result ≡ int_at frame cell self.now }
    {
        as_int(self.cell(frame, cell))
    }

    #[tactic(auto, using(crate::proofs::Rows::writes))]
    fn put(&mut self, frame: u64, cell: u32, value: Value)
        ensures { self.new ≡ put frame cell value self.old }
    {
        let frame = frame as usize;
        let cell = cell as usize;
        if frame < self.frames.len() {
            let f = &mut self.frames[frame];
            if cell < f.cells.len() {
                f.cells.set(cell, value);
            }
        }
    }

    #[tactic(auto, using(crate::proofs::Lists::puts))]
    fn put_all(&mut self, frame: u64, cells: &[u32], values: &[Value])
        ensures { self.new ≡ put_all frame cells.now values.now self.old }
    {
        for (at, cell) in cells.iter().enumerate() {
            let Some(value) = values.get(at) else {
                return;
            };
            self.put(frame, *cell, *value);
        }
    }

    fn cells(&self, alloc: Global, frame: u64, cells: &[u32]) -> Result<List<Value>, NoMemory>
        ensures { IfOk result (λ xs. xs ≡ cells_at frame cells.now self.now) }
    {
        let mut values = List::new(alloc);
        for c in cells {
            values.push(self.cell(frame, *c))?;
        }
        Ok(values)
    }

    fn ints(&self, alloc: Global, frame: u64, cells: &[u32]) -> Result<List<i64>, NoMemory>
        ensures { IfOk result (λ xs. xs ≡ ints_at frame cells.now self.now) }
    {
        let mut numbers = List::new(alloc);
        for c in cells {
            numbers.push(self.int(frame, *c))?;
        }
        Ok(numbers)
    }

    fn say(&mut self, message: Message) -> Result<(), NoMemory>
        ensures { OnOk result (self.new ≡ says message self.old) }
    {
        self.outbox.push(message)?;
        Ok(())
    }

    #[tactic(auto, using(crate::proofs::Rows::rows))]
    fn end_frame(&mut self, alloc: Global, frame: u64)
        ensures { self.new ≡ end_frame frame self.old }
    {
        let frame = frame as usize;
        if frame < self.frames.len() {
            let f = &mut self.frames[frame];
            f.live = false;
            f.cells = List::new(alloc);
        }
    }

    /// Whether a spawned fiber waits.
    pub fn has_spawned(&self) -> bool
        ensures { result ≡ has_some self.now.spawned }
    {
        self.spawned.has_some()
    }

    /// Takes the oldest message of the outbox.
    pub fn take_out(&mut self) -> Option<Message>
        ensures outbox { TookOldest result (taken self.old.outbox) self.old.outbox self.new.outbox }
        ensures rest { self.new ≡ record self.old { outbox = self.new.outbox } }
    {
        self.outbox.pop()
    }

    /// Whether the outbox holds a message.
    pub fn has_out(&self) -> bool
        ensures { result ≡ has_some self.now.outbox }
    {
        self.outbox.has_some()
    }
}
