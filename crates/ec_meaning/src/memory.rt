//! What accesses read and change in blocks.
ghost use Rattle.std.specs.Prelude.{◌≡◌, ◌+◌, ◌*◌, ◌<◌, ◌≤◌, ◌^◌, length, get_or, slice_set, pos, if◌then◌else◌, Some, None, OnSome, IfSome, IfOk};
ghost use Rattle.ec_types.specs.Meaning.Memory as memory;
ghost use Rattle.ec_meaning.specs.Reached as reached;
ghost use Rattle.ec_meaning.specs.Kept.{Kept, Meets, itself};
ghost use Rattle.ec_meaning.specs.Seen.{val, access};
ghost use Rattle.ec_meaning.specs.declared.value.Value.TheVariants as value;

use crate::combining::sum;
use crate::shared_state::Core;
use crate::value::{Access, Value};
use ec_base::{Fail, Span, Trap, TrapKind};
use ec_resolve::Extent;

/// A cell of a block.
#[derive(Clone, Copy)]
struct Spot {
    block: usize,
    cell: usize,
}

pub(crate) fn trapped(kind: TrapKind, at: Span) -> Fail<Trap>
    ensures { result ≡ reached.trapped kind at }
{
    Fail::Refused(Trap { kind, at })
}

/// The access to a shared variable.
pub(crate) fn shared(at: Span, pointer: Value) -> Access
    ensures { result ≡ reached.shared at pointer }
{
    Access {
        at,
        base: pointer,
        index: 0,
        size: 1,
        field: Extent {
            number: 0,
            first: 0,
            length: 1,
        },
        item: 0,
    }
}

/// The number of the block to which a value points.
pub(crate) fn pointed(at: Span, base: Value) -> Result<usize, Fail<Trap>>
    ensures { result ≡ reached.pointed at base }
{
    match base {
        Value::To(block) => Ok(block),
        Value::Int(_) => Err(trapped(TrapKind::Null, at)),
        Value::Null => Err(trapped(TrapKind::Null, at)),
    }
}

/// The first cell of the element of this index, where it lies within so many cells.
fn first_cell(index: i64, size: usize, count: usize) -> Option<usize>
    ensures value { result ≡ reached.first_cell index size count }
    ensures is { IfSome result (λ start. start ≡ memory.natural index * size) }
    ensures within { IfSome result (λ start. start + size ≤ count) }
{
    if index < 0 {
        return None;
    }
    let start = (index as usize).checked_mul(size)?;
    if size <= count && start <= count - size {
        Some(start)
    } else {
        None
    }
}

/// The index in an array field, where it is below the field's length.
fn item_below(item: i64, length: u32) -> Option<usize>
    ensures index { result ≡ (if memory.is_below item length then Some (memory.natural item) else None) }
    ensures small { OnSome result (memory.natural item < 2 ^ 32) }
{
    if 0 <= item && item < length as i64 {
        Some(item as usize)
    } else {
        None
    }
}

/// Sets a cell, where there is one.
fn set_cell(cells: &mut Vec<Value>, cell: usize, value: Value)
    ensures { cells.new.items ≡ slice_set cells.old.items cell value }
{
    if cell < cells.len() {
        cells[cell] = value;
    }
}

impl Core {
    /// The cells of a block, none where there is no such block.
    pub(crate) fn cells(&self, block: usize) -> &[Value]
        ensures { result.now ≡ reached.cells_in self.now.blocks.items block }
    {
        match self.blocks.get(block) {
            Some(b) => b.cells.as_slice(),
            None => &[],
        }
    }

    /// The first cell of an access's element in a block.
    pub(crate) fn start(&self, a: &Access, block: usize) -> Result<usize, Fail<Trap>>
        ensures value { result ≡ reached.start_in self.now.blocks.items a.now block }
        ensures room { length (reached.cells_in self.now.blocks.items block) < 2 ^ 64 }
        ensures is { IfOk result (λ start. start ≡ memory.natural a.now.index * a.now.size) }
        ensures within { IfOk result (λ start. start + a.now.size ≤ length (reached.cells_in self.now.blocks.items block)) }
    {
        match first_cell(a.index, a.size as usize, self.cells(block).len()) {
            Some(start) => Ok(start),
            None => Err(trapped(TrapKind::Bounds, a.at)),
        }
    }

    /// The cell that an access reaches.
    fn spot(&self, a: &Access) -> Result<Spot, Fail<Trap>>
        ensures value { result ≡ reached.spot self.now.blocks.items a.now }
        ensures room { IfOk result (λ s. length (reached.cells_in self.now.blocks.items s.block) < 2 ^ 64) }
    {
        let Some(item) = item_below(a.item, a.field.length) else {
            return Err(trapped(TrapKind::Bounds, a.at));
        };
        let block = pointed(a.at, a.base)?;
        let start = self.start(a, block)?;
        let cell = start.saturating_add(a.field.first as usize + item);
        Ok(Spot { block, cell })
    }

    /// What a cell holds, 0 behind the block's last one.
    fn value_at(&self, spot: Spot) -> Value
        ensures { result ≡ get_or (reached.cells_in self.now.blocks.items spot.block) spot.cell (value.Int (pos 0)) }
    {
        match self.cells(spot.block).get(spot.cell) {
            Some(value) => *value,
            None => Value::Int(0),
        }
    }

    /// Sets a cell, where the block has it. No run comes to a pointer whose block isn't there.
    fn put(&mut self, spot: Spot, value: Value) -> Result<(), Fail<Trap>>
        ensures { reached.Changed spot.block (λ cells. slice_set cells spot.cell value) self.old self.new result }
    {
        if spot.block >= self.blocks.len() {
            return Err(Fail::Memory);
        }
        set_cell(&mut self.blocks[spot.block].cells, spot.cell, value);
        Ok(())
    }

    /// What an access gives.
    pub(crate) fn load(&self, a: &Access) -> Result<Value, Fail<Trap>>
        ensures { Meets val (λ u. memory.load (access u a.now)) self.now self.now result }
    {
        let spot = self.spot(a)?;
        Ok(self.value_at(spot))
    }

    /// Sets what an access reaches.
    pub(crate) fn save(&mut self, a: &Access, value: Value) -> Result<(), Fail<Trap>>
        ensures kept { Kept result self.old self.new }
        ensures does { Meets itself (λ u. memory.save (access u a.now) (val u value)) self.old self.new result }
    {
        let spot = self.spot(a)?;
        self.put(spot, value)
    }

    /// Adds to a shared variable.
    pub(crate) fn add(&mut self, at: Span, to: Value, value: Value) -> Result<(), Fail<Trap>>
        ensures kept { Kept result self.old self.new }
        ensures does { Meets itself (λ u. memory.add at (val u to) (val u value)) self.old self.new result }
    {
        let access = shared(at, to);
        let before = self.load(&access)?;
        self.save(&access, sum(before, value))
    }
}
