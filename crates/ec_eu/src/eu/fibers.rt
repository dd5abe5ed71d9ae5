//! Fiber runs.
ghost use Rattle.std.specs.Prelude.{◌≡◌, ◌<◌, ◌^◌, IfOk, OnOk};
ghost use Rattle.ec_cells.specs.Frames.{cell_count};
ghost use Rattle.ec_eu.specs.Fibers.{Stepped, does, runs_fiber, suits};
ghost use Rattle.ec_eu.specs.Instructions.{activation_of, one};

use crate::eu::Eu;
use crate::state::Next;
use ec_base::NoMemory;
use ec_code::{Code, Function, Instr};
use std::alloc::Global;

impl Eu {
    /// One instruction of a fiber, and the place of the one that comes next; none where the fiber ends or traps. A jump that
    /// doesn't lead forward goes on behind itself.
    fn step(
        &mut self,
        alloc: Global,
        n: u64,
        at: usize,
        x: &Instr,
    ) -> Result<Option<usize>, NoMemory>
        requires { at < 2 ^ 63 }
        ensures { IfOk result (λ place. Stepped place at (one n x.now self.old) self.new) }
    {
        Ok(match self.one(alloc, n, x)? {
            Next::On => Some(at + 1),
            Next::To(target) => Some((at + 1).max(target as usize)),
            Next::Ends => None,
            Next::Traps(trap) => {
                self.trap = Some(trap);
                None
            }
        })
    }

    /// The instructions of a fiber, from the first on until it ends or traps.
    #[tactic(auto, using(crate::proofs::Fibers::does_last, crate::proofs::Fibers::does_next, crate::proofs::Fibers::does_past, crate::proofs::Fibers::comes_later))]
    fn does(&mut self, alloc: Global, n: u64, instrs: &[Instr]) -> Result<(), NoMemory>
        ensures { OnOk result (self.new ≡ does n 0 0 instrs.now self.old) }
    {
        let mut at = 0;
        while let Some(x) = instrs.get(at) {
            match self.step(alloc, n, at, x)? {
                None => return Ok(()),
                Some(next) => at = next,
            }
        }
        Ok(())
    }

    /// Whether a frame has as many cells as a function, and its call as many as that has results.
    fn suits(&self, n: u64, f: &Function) -> bool
        ensures { result ≡ suits f.now (cell_count n self.now.memory) (activation_of n self.now) }
    {
        match self.activation(n) {
            None => false,
            Some(a) => {
                self.memory.cell_count(n) == f.cells as usize
                    && a.caller.cells.len() == f.results as usize
            }
        }
    }

    /// Runs a fiber of a frame to its end. Nothing happens where the frame isn't live, or was made for another function than the
    /// code has.
    pub(crate) fn run_fiber(
        &mut self,
        alloc: Global,
        code: &Code,
        n: u64,
        fiber: u32,
    ) -> Result<(), NoMemory>
        ensures { OnOk result (self.new ≡ runs_fiber code.now n fiber self.old) }
    {
        let Some(a) = self.activation(n) else {
            return Ok(());
        };
        let Some(f) = code.functions.get(a.function as usize) else {
            return Ok(());
        };
        if !self.suits(n, f) {
            return Ok(());
        }
        match f.fibers.get(fiber as usize) {
            None => Ok(()),
            Some(fiber) => self.does(alloc, n, fiber.instrs.as_slice()),
        }
    }
}
