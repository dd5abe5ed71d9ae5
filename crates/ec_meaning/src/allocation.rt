//! Blocks come to be.
ghost use Rattle.std.specs.Prelude.{◌≡◌, map, if◌then◌else◌, Some, None, IfOk};
ghost use Rattle.std.specs.List.{repeat};
ghost use Rattle.ec_resolve.specs.Erased.{first_value};
ghost use Rattle.ec_types.specs.Meaning.Memory as memory;
ghost use Rattle.ec_meaning.specs.Kept.{Kept, Meets};
ghost use Rattle.ec_meaning.specs.Reached.{first_of, Bears};
ghost use Rattle.ec_meaning.specs.Seen.{val};

use crate::memory::trapped;
use crate::shared_state::Core;
use crate::value::{Block, Value};
use ec_base::{Fail, MAX_BLOCK, Span, Trap, TrapKind};
use std::alloc::{AllocError, Global};

/// How many elements of so many cells are asked for, where there is one at least and the cells are within the limit.
fn element_count(count: i64, size: usize) -> Option<usize>
    ensures { result ≡ (if memory.is_count count size then Some (memory.natural count) else None) }
{
    if count <= 0 {
        return None;
    }
    let cells = (count as usize).checked_mul(size)?;
    if cells <= MAX_BLOCK as usize {
        Some(count as usize)
    } else {
        None
    }
}

/// What a cell is at first.
fn first_value(pointer: bool) -> Value
    ensures { result ≡ first_of pointer }
{
    if pointer { Value::Null } else { Value::Int(0) }
}

/// The cells of a new element.
fn element(alloc: Global, pointers: &[bool]) -> Result<Vec<Value>, AllocError>
    ensures { IfOk result (λ cells. cells.items ≡ map first_of pointers.now) }
{
    let mut cells = Vec::new(alloc);
    for pointer in pointers {
        cells.push(first_value(*pointer))?;
    }
    Ok(cells)
}

/// The cells of so many new elements.
#[tactic(auto, using(crate::proofs::Lists::repeat_more))]
fn elements(alloc: Global, pointers: &[bool], count: usize) -> Result<Vec<Value>, AllocError>
    ensures { IfOk result (λ cells. cells.items ≡ repeat count (map first_of pointers.now)) }
{
    let mut cells = Vec::new(alloc);
    if pointers.is_empty() {
        return Ok(cells);
    }
    let element = element(alloc, pointers)?;
    for _ in 0..count {
        cells.extend_from_slice(element.as_slice())?;
    }
    Ok(cells)
}

impl Core {
    /// A block at the next birth, and the pointer to it.
    fn bear(&mut self, alloc: Global, cells: Vec<Value>) -> Result<Value, Fail<Trap>>
        ensures { Bears cells.items self.old self.new result }
    {
        let path = self.next_path(alloc)?;
        let number = self.blocks.len();
        self.blocks.push(Block { path, cells })?;
        Ok(Value::To(number))
    }

    /// A block at the next birth, and the pointer to it.
    pub(crate) fn born(&mut self, alloc: Global, cells: Vec<Value>) -> Result<Value, Fail<Trap>>
        ensures kept { Kept result self.old self.new }
        ensures does { Meets val (λ u. memory.born (map (val u) cells.items)) self.old self.new result }
    {
        self.bear(alloc, cells)
    }

    /// A block of so many elements, of which `pointers` says which cells are pointers.
    pub(crate) fn allocate(
        &mut self,
        alloc: Global,
        at: Span,
        pointers: &[bool],
        count: Value,
    ) -> Result<Value, Fail<Trap>>
        ensures kept { Kept result self.old self.new }
        ensures does { Meets val (λ u. memory.allocate at (map first_value pointers.now) (val u count)) self.old self.new result }
    {
        let Some(count) = element_count(count.number(), pointers.len()) else {
            return Err(trapped(TrapKind::BadSize, at));
        };
        let cells = elements(alloc, pointers, count)?;
        self.born(alloc, cells)
    }
}
