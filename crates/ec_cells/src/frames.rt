//! Frames and their cells, and the births that they take.
ghost use Rattle.std.specs.Prelude.{◌≡◌, length, pos, replicate, IfOk, OnOk, OnErr};
ghost use Rattle.ec_cells.specs.Frames as frames;

use crate::node::{Frame, Node};
use ec_base::{Birth, List, NoMemory, Value};
use std::alloc::Global;

/// So many cells that are 0.
fn zeros(alloc: Global, count: u32) -> Result<List<Value>, NoMemory>
    ensures { IfOk result (λ cells. cells ≡ replicate count (Value.Int (pos 0))) }
{
    let mut cells = Vec::new(alloc);
    cells.resize(count as usize, Value::Int(0))?;
    Ok(List::from_vec(cells))
}

impl Node {
    /// Makes a frame whose cells are 0, and gives its number. Its birth is the caller's matter: a frame that no other
    /// frame called has none.
    pub fn make_frame(
        &mut self,
        alloc: Global,
        cells: u32,
        birth: Option<Birth>,
    ) -> Result<u64, NoMemory>
        ensures number { IfOk result (λ n. n ≡ length self.old.frames) }
        ensures ok { OnOk result (self.new ≡ frames.with_frame cells birth self.old) }
        ensures err { OnErr result (self.new ≡ self.old) }
    {
        let cells = zeros(alloc, cells)?;
        let number = self.frames.len() as u64;
        self.frames.reserve(1)?;
        self.births.frames.push(birth)?;
        self.frames.push_reserved(Frame {
            live: true,
            cells,
            taken: List::new(alloc),
        });
        Ok(number)
    }

    /// Ends a frame: its cells are gone, and its number isn't used again.
    pub fn end_frame(&mut self, alloc: Global, frame: u64)
        ensures { self.new ≡ frames.end_frame frame self.old }
    {
        let frame = frame as usize;
        if frame < self.frames.len() {
            self.frames[frame] = Frame {
                live: false,
                cells: List::new(alloc),
                taken: List::new(alloc),
            };
        }
    }

    /// Whether a frame was made and hasn't ended.
    pub fn live(&self, frame: u64) -> bool
        ensures { result ≡ frames.lives frame self.now }
    {
        match self.frames.get(frame as usize) {
            Some(f) => f.live,
            None => false,
        }
    }

    /// How many cells a frame has; one that isn't live has none.
    pub fn cell_count(&self, frame: u64) -> usize
        ensures { result ≡ frames.cell_count frame self.now }
    {
        match self.frames.get(frame as usize) {
            Some(f) => f.cells.len(),
            None => 0,
        }
    }

    /// What a cell of a frame holds, and 0 where there is no such cell.
    pub fn cell(&self, frame: u64, cell: u32) -> Value
        ensures { result ≡ frames.cell_at frame cell self.now }
    {
        match self.frames.get(frame as usize) {
            Some(f) => match f.cells.get(cell as usize) {
                Some(v) => *v,
                None => Value::Int(0),
            },
            None => Value::Int(0),
        }
    }

    /// Sets a cell of a frame; nothing happens where there is no such cell.
    #[tactic(auto, using(crate::proofs::Rows::writes))]
    pub fn set_cell(&mut self, frame: u64, cell: u32, v: Value)
        ensures { self.new ≡ frames.put_cell frame cell v self.old }
    {
        let frame = frame as usize;
        let cell = cell as usize;
        if frame < self.frames.len() {
            let f = &mut self.frames[frame];
            if cell < f.cells.len() {
                f.cells.set(cell, v);
            }
        }
    }

    /// The next birth of a frame.
    pub(crate) fn birth_to_come(&self, frame: u64) -> Birth
        ensures { result ≡ frames.next_birth frame self.now }
    {
        let taken = match self.frames.get(frame as usize) {
            Some(f) => f.taken.as_slice().len(),
            None => 0,
        };
        Birth {
            node: self.number,
            frame,
            number: taken as u64 + 1,
        }
    }

    /// Notes that a frame took one number more.
    #[tactic(auto, using(crate::proofs::Rows::rows))]
    pub(crate) fn take_birth(&mut self, frame: u64) -> Result<(), NoMemory>
        ensures ok { OnOk result (self.new ≡ frames.took_birth frame self.old) }
        ensures err { OnErr result (self.new ≡ self.old) }
    {
        let frame = frame as usize;
        if frame < self.frames.len() {
            self.frames[frame].taken.push(0)?;
        }
        Ok(())
    }

    /// Takes the next number of a live frame for a birth. The numbers count from 1, over this call and `make_block`.
    pub fn next_birth(&mut self, frame: u64) -> Result<Birth, NoMemory>
        ensures birth { IfOk result (λ b. b ≡ frames.next_birth frame self.old) }
        ensures ok { OnOk result (self.new ≡ frames.took_birth frame self.old) }
        ensures err { OnErr result (self.new ≡ self.old) }
    {
        let birth = self.birth_to_come(frame);
        self.take_birth(frame)?;
        Ok(birth)
    }
}
