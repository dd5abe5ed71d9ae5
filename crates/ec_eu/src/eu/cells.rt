//! Cells of frames.
ghost use Rattle.std.specs.Prelude.{◌≡◌, length, IfOk};
ghost use Rattle.ec_eu.specs.Cells as cells;

use crate::eu::Eu;
use ec_base::{Block, List, NoMemory, Value};
use ec_cells::as_int;
use std::alloc::Global;

/// A value as a pointer: what is no pointer counts as NULL.
fn as_pointer(value: Value) -> Option<Block>
    ensures { result ≡ cells.as_pointer value }
{
    match value {
        Value::Int(_) => None,
        Value::Null => None,
        Value::Ptr(block) => Some(block),
    }
}

/// Whether two pointers name one block, or both are NULL.
pub(crate) fn same_block(a: Option<Block>, b: Option<Block>) -> bool
    ensures { result ≡ cells.same_block a b }
{
    match (a, b) {
        (None, None) => true,
        (Some(a), Some(b)) => a.node == b.node && a.number == b.number,
        (None, Some(_)) => false,
        (Some(_), None) => false,
    }
}

impl Eu {
    pub(crate) fn value(&self, n: u64, cell: u32) -> Value
        ensures { result ≡ cells.value_at n cell self.now }
    {
        self.memory.cell(n, cell)
    }

    pub(crate) fn int(&self, n: u64, cell: u32) -> i64
        ensures { result ≡ cells.int_at n cell self.now }
    {
        as_int(self.value(n, cell))
    }

    pub(crate) fn pointer(&self, n: u64, cell: u32) -> Option<Block>
        ensures { result ≡ cells.pointer_at n cell self.now }
    {
        as_pointer(self.value(n, cell))
    }

    pub(crate) fn values(
        &self,
        alloc: Global,
        n: u64,
        places: &[u32],
    ) -> Result<List<Value>, NoMemory>
        ensures { IfOk result (λ xs. xs ≡ cells.values_at n places.now self.now) }
    {
        let mut values = List::new(alloc);
        for c in places {
            values.push(self.value(n, *c))?;
        }
        Ok(values)
    }

    pub(crate) fn ints(&self, alloc: Global, n: u64, places: &[u32]) -> Result<List<i64>, NoMemory>
        ensures { IfOk result (λ xs. xs ≡ cells.ints_at n places.now self.now) }
    {
        let mut numbers = List::new(alloc);
        for c in places {
            numbers.push(self.int(n, *c))?;
        }
        Ok(numbers)
    }

    pub(crate) fn put(&mut self, n: u64, cell: u32, value: Value)
        ensures { self.new ≡ cells.put n cell value self.old }
    {
        self.memory.set_cell(n, cell, value);
    }

    /// Sets cells one after the other, as far as both lists go.
    #[tactic(auto, using(crate::proofs::Lists::puts))]
    pub(crate) fn put_all(&mut self, n: u64, places: &[u32], values: &[Value])
        ensures { self.new ≡ cells.put_all n places.now values.now self.old }
    {
        for (at, cell) in places.iter().enumerate() {
            let Some(value) = values.get(at) else {
                return;
            };
            self.put(n, *cell, *value);
        }
    }

    /// Sets the first cells of a frame, one after the other.
    #[tactic(auto, using(crate::proofs::Lists::puts))]
    pub(crate) fn put_first(&mut self, n: u64, count: u32, values: &[Value])
        requires { length values.now ≡ count }
        ensures { self.new ≡ cells.put_from n 0 values.now self.old }
    {
        for cell in 0..count {
            let Some(value) = values.get(cell as usize) else {
                return;
            };
            self.put(n, cell, *value);
        }
    }
}
