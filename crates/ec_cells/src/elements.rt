//! Whole elements of blocks.
ghost use Rattle.std.specs.Prelude.{◌≡◌, ◌+◌, ◌^◌, ◌<◌, ◌≤◌, ◌++◌, length, take, drop, IfOk};
ghost use Rattle.ec_cells.specs.Accesses as accesses;
ghost use Rattle.ec_cells.specs.Accesses.{Changed};

use crate::node::Node;
use crate::places::element_start;
use ec_base::{List, NoMemory, Value};
use std::alloc::Global;

/// Writes cells over others, from a place on.
#[tactic(auto, using(crate::proofs::Rows::pastes))]
fn overwrite(into: &mut List<Value>, start: usize, cells: &[Value])
    requires within { start + length cells.now ≤ length into.old }
    requires fits { start + length cells.now < 2 ^ 64 }
    ensures { into.new ≡ take start into.old ++ cells.now ++ drop (start + length cells.now) into.old }
{
    for (at, cell) in cells.iter().enumerate() {
        into.set(start + at, *cell);
    }
}

impl Node {
    /// The cells of an element of this size; none where the block is unknown, or has no such element.
    pub fn element(
        &self,
        alloc: Global,
        block: u64,
        index: i64,
        size: u32,
    ) -> Result<Option<List<Value>>, NoMemory>
        ensures { IfOk result (λ cells. cells ≡ accesses.element block index size self.now) }
    {
        let Some(cells) = self.blocks.get(block as usize) else {
            return Ok(None);
        };
        let size = size as usize;
        let Some(start) = element_start(index, size, cells.as_slice()) else {
            return Ok(None);
        };
        let taken = List::from_slice(alloc, &cells.as_slice()[start..start + size])?;
        Ok(Some(taken))
    }

    /// Replaces an element, whose size is the number of cells given; none, and nothing happens, where the block is unknown,
    /// or has no such element.
    #[tactic(auto, using(crate::proofs::Rows::writes))]
    pub fn put_element(&mut self, block: u64, index: i64, cells: &[Value]) -> Option<()>
        ensures { Changed result (accesses.put_element block index cells.now self.old) self.old self.new }
    {
        let block = block as usize;
        if block >= self.blocks.len() {
            return None;
        }
        let into = &mut self.blocks[block];
        let start = element_start(index, cells.len(), into.as_slice())?;
        overwrite(into, start, cells);
        Some(())
    }
}
