//! Elements are copied from block to block.
ghost use Rattle.std.specs.Prelude.{◌≡◌, ◌+◌, ◌*◌, ◌≤◌, length, IfOk, OnOk};
ghost use Rattle.ec_types.specs.Meaning.Memory as memory;
ghost use Rattle.ec_meaning.specs.Kept.{Kept, Meets, itself};
ghost use Rattle.ec_meaning.specs.Reached as reached;
ghost use Rattle.ec_meaning.specs.Reached.{cells_in};
ghost use Rattle.ec_meaning.specs.Seen.{access};

use crate::memory::pointed;
use crate::shared_state::Core;
use crate::value::{Access, Value};
use ec_base::{Fail, List, Trap};
use std::alloc::{AllocError, Global};

/// The block that an element is copied from and the element's first cell there, and the same of where it is copied to.
#[derive(Clone, Copy)]
struct Way {
    from: usize,
    first: usize,
    to: usize,
    start: usize,
}

/// Puts other cells in the place of so many.
fn splice(
    cells: &mut Vec<Value>,
    start: usize,
    size: usize,
    new: &[Value],
) -> Result<(), AllocError>
    requires { start + size ≤ length cells.old.items }
    ensures { OnOk result (cells.new.items ≡ reached.spliced start size new.now cells.old.items) }
{
    if new.len() == size {
        let place = &mut cells[start..start + size];
        place.copy_from_slice(new);
        return Ok(());
    }
    let mut behind = cells.split_off(start + size)?;
    cells.truncate(start);
    cells.extend_from_slice(new)?;
    cells.append(&mut behind)
}

impl Core {
    /// Where an element is copied from and to.
    fn way(&self, target: &Access, source: &Access) -> Result<Way, Fail<Trap>>
        ensures value { result ≡ reached.way self.now.blocks.items target.now source.now }
        ensures first { IfOk result (λ w. w.first ≡ memory.natural source.now.index * source.now.size) }
        ensures start { IfOk result (λ w. w.start ≡ memory.natural target.now.index * target.now.size) }
        ensures source { IfOk result (λ w. w.first + source.now.size ≤ length (cells_in self.now.blocks.items w.from)) }
        ensures target { IfOk result (λ w. w.start + target.now.size ≤ length (cells_in self.now.blocks.items w.to)) }
    {
        let from = pointed(source.at, source.base)?;
        let to = pointed(target.at, target.base)?;
        let first = self.start(source, from)?;
        let start = self.start(target, to)?;
        Ok(Way {
            from,
            first,
            to,
            start,
        })
    }

    /// Puts other cells in the place of so many of a block. No run comes to a pointer whose block isn't there.
    fn splice_in(
        &mut self,
        block: usize,
        start: usize,
        size: usize,
        new: &[Value],
    ) -> Result<(), Fail<Trap>>
        requires { start + size ≤ length (cells_in self.old.blocks.items block) }
        ensures { reached.Changed block (reached.spliced start size new.now) self.old self.new result }
    {
        if block >= self.blocks.len() {
            return Err(Fail::Memory);
        }
        splice(&mut self.blocks[block].cells, start, size, new)?;
        Ok(())
    }

    /// Copies an element.
    pub(crate) fn copy(
        &mut self,
        alloc: Global,
        target: &Access,
        source: &Access,
    ) -> Result<(), Fail<Trap>>
        ensures kept { Kept result self.old self.new }
        ensures does { Meets itself (λ u. memory.copy (access u target.now) (access u source.now)) self.old self.new result }
    {
        let way = self.way(target, source)?;
        let end = way.first + source.size as usize;
        let element = List::from_slice(alloc, &self.cells(way.from)[way.first..end])?;
        self.splice_in(way.to, way.start, target.size as usize, element.as_slice())
    }
}
