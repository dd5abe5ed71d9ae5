//! What the activations share.
ghost use Rattle.std.specs.Prelude.{◌≡◌, ◌+◌, [], ◌∷◌, ◌++◌, drop, reverse, get_or, IfOk, OnOk};

use crate::stack::Stack;
use crate::value::Block;
use ec_base::{List, NoMemory};
use std::alloc::Global;

/// The births of each open activation, the one that runs last; the most that were open at once, the output, and the blocks.
/// The births of those above the one that runs are its path, since each of them has made the next one last.
#[derive(Drop)]
pub(crate) struct Core {
    pub(crate) births: Stack<u64>,
    pub(crate) most: usize,
    pub(crate) output: Vec<u8>,
    pub(crate) blocks: Vec<Block>,
}

impl Core {
    /// The path of what is born next in the activation that runs, whose births rise by one.
    pub(crate) fn next_path(&mut self, alloc: Global) -> Result<List<u64>, NoMemory>
        ensures path { IfOk result (λ p. p ≡ reverse (drop 1 self.old.births) ++ (get_or self.old.births 0 0 + 1) ∷ []) }
        ensures births { OnOk result (self.new ≡ record self.old { births = (get_or self.old.births 0 0 + 1) ∷ drop 1 self.old.births }) }
    {
        let births = self.births.pop().unwrap_or(0);
        let Some(more) = births.checked_add(1) else {
            return Err(NoMemory);
        };
        self.births.push(more)?;
        Ok(List::from_slice(alloc, self.births.in_order())?)
    }
}
