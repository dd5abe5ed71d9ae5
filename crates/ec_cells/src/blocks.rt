//! Blocks, and accesses to their cells.
ghost use Rattle.std.specs.Prelude.{◌≡◌, ◌==◌, ◌%◌, ◌++◌, if◌then◌else◌, length, pos, IfOk, OnOk, OnErr};
ghost use Rattle.ec_cells.specs.Accesses as accesses;
ghost use Rattle.ec_cells.specs.Accesses.{Changed};
ghost use Rattle.ec_cells.specs.Blocks.{fresh_cells, fresh_element, with_birth, with_block};

use crate::node::Node;
use crate::places::cell_place;
use ec_base::{List, NoMemory, Value};
use std::alloc::Global;

/// The cell that the lowest bit tells: NULL where it is set, and 0 elsewhere.
fn first_cell(nils: u64) -> Value
    ensures { result ≡ (if nils % 2 == 1 then Value.Null else Value.Int (pos 0)) }
{
    if nils % 2 == 1 {
        Value::Null
    } else {
        Value::Int(0)
    }
}

/// Puts the first cells of an element behind others.
#[tactic(auto, using(crate::proofs::Fresh::fills))]
fn push_element(cells: &mut Vec<Value>, size: u32, mut nils: u64) -> Result<(), NoMemory>
    ensures { OnOk result (cells.new.items ≡ cells.old.items ++ fresh_element size nils) }
{
    for _ in 0..size {
        cells.push(first_cell(nils))?;
        nils /= 2;
    }
    Ok(())
}

/// The first cells of so many elements.
#[tactic(auto, using(crate::proofs::Fresh::fills))]
fn fresh_cells(alloc: Global, count: u64, size: u32, nils: u64) -> Result<List<Value>, NoMemory>
    ensures { IfOk result (λ cells. cells ≡ fresh_cells count size nils) }
{
    let Some(len) = count.checked_mul(size as u64) else {
        return Err(NoMemory);
    };
    // the loop takes a turn for each element, and elements without cells may be very many
    if len == 0 {
        return Ok(List::new(alloc));
    }
    let mut cells = Vec::with_capacity(alloc, len as usize)?;
    for _ in 0..count {
        push_element(&mut cells, size, nils)?;
    }
    Ok(List::from_vec(cells))
}

/// A value as a number: what is no number counts as 0.
pub fn as_int(value: Value) -> i64
    ensures { result ≡ accesses.as_int value }
{
    match value {
        Value::Int(n) => n,
        Value::Null => 0,
        Value::Ptr(_) => 0,
    }
}

impl Node {
    /// Gives a block more the next birth of a frame.
    fn add_birth(&mut self, frame: u64) -> Result<(), NoMemory>
        ensures ok { OnOk result (self.new ≡ with_birth frame self.old) }
        ensures err { OnErr result (self.new ≡ self.old) }
    {
        let birth = self.birth_to_come(frame);
        self.births.blocks.push(birth)?;
        if let Err(_) = self.take_birth(frame) {
            self.births.blocks.pop();
            return Err(NoMemory);
        }
        Ok(())
    }

    /// Makes a block of so many elements and gives its number. Cell j of each element is NULL where bit j of `nils` is set,
    /// and 0 elsewhere. The block's birth is the next one of the frame.
    pub fn make_block(
        &mut self,
        alloc: Global,
        frame: u64,
        count: u64,
        size: u32,
        nils: u64,
    ) -> Result<u64, NoMemory>
        ensures number { IfOk result (λ n. n ≡ length self.old.blocks) }
        ensures ok { OnOk result (self.new ≡ with_block frame (fresh_cells count size nils) self.old) }
        ensures err { OnErr result (self.new ≡ self.old) }
    {
        let cells = fresh_cells(alloc, count, size, nils)?;
        let number = self.blocks.len() as u64;
        self.blocks.push(cells)?;
        if let Err(_) = self.add_birth(frame) {
            self.blocks.pop();
            return Err(NoMemory);
        }
        Ok(number)
    }

    /// What a cell of an element of this size holds; none where the block is unknown, or has no such element or cell.
    pub fn load(&self, block: u64, index: i64, size: u32, off: i64) -> Option<Value>
        ensures { result ≡ accesses.load block index size off self.now }
    {
        let cells = self.blocks.get(block as usize)?;
        let place = cell_place(index, size, off, cells.as_slice())?;
        cells.get(place).copied()
    }

    /// Sets a cell of an element of this size; none, and nothing happens, where the block is unknown, or has no such element
    /// or cell.
    #[tactic(auto, using(crate::proofs::Rows::writes))]
    pub fn store(&mut self, block: u64, index: i64, size: u32, off: i64, v: Value) -> Option<()>
        ensures { Changed result (accesses.store block index size off v self.old) self.old self.new }
    {
        let block = block as usize;
        if block >= self.blocks.len() {
            return None;
        }
        let cells = &mut self.blocks[block];
        let place = cell_place(index, size, off, cells.as_slice())?;
        cells.set(place, v);
        Some(())
    }

    /// Adds a number to a block's first cell, modulo 2^64; none, and nothing happens, where the block is unknown or empty.
    #[tactic(auto, using(crate::proofs::Rows::writes))]
    pub fn add(&mut self, block: u64, by: i64) -> Option<()>
        ensures { Changed result (accesses.add block by self.old) self.old self.new }
    {
        let block = block as usize;
        if block >= self.blocks.len() {
            return None;
        }
        let cells = &mut self.blocks[block];
        let first = as_int(*cells.get(0)?);
        cells.set(0, Value::Int(first.wrapping_add(by)));
        Some(())
    }
}
