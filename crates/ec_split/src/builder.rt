//! The fibers of a function, one after the other.
ghost use Rattle.std.specs.Prelude.{◌≡◌, ◌≤◌, [], ◌∷◌, true, length, OnOk, IfOk};
ghost use Rattle.std.specs.List.{list_all};
ghost use Rattle.ec_small.specs.Sound.{operators, is_sound, is_sound_init, is_sound_stmt};
ghost use Rattle.ec_small.specs.declared.tree.Expr.{Expr};
ghost use Rattle.ec_small.specs.declared.tree.Stmt.TheVariants.{Print};
ghost use Rattle.ec_split.specs.Cut.{init_instrs};
ghost use Rattle.ec_split.specs.Building.{Continues, ended, goes_on, to_come};

use crate::arguments::{arguments, cells_from};
use crate::expression::expression;
use ec_base::{List, MAX_MARKS, MAX_PRINT_ARGUMENTS, MAX_VARIABLES, NoMemory, Text};
use ec_core::{Fiber, Instr};
use ec_small::{Expr, Stmt};
use std::alloc::Global;
use std::mem::replace;

/// The fibers that stand, and the instructions of the fiber under way. Temporaries are the cells from `base` on.
#[derive(Drop)]
pub struct Builder {
    pub alloc: Global,
    pub base: u32,
    pub done: List<Fiber>,
    pub instrs: List<Instr>,
}

impl Builder {
    pub fn new(alloc: Global, base: u32) -> Builder
        ensures { result ≡ record { alloc = alloc; base = base; done = []; instrs = [] } }
    {
        Builder {
            alloc,
            base,
            done: List::new(alloc),
            instrs: List::new(alloc),
        }
    }

    /// Ends the fiber under way, and begins another.
    fn end_fiber(&mut self) -> Result<(), NoMemory>
        ensures { OnOk result (self.new ≡ ended self.old) }
    {
        let instrs = replace(&mut self.instrs, List::new(self.alloc));
        self.done.push(Fiber { instrs })?;
        Ok(())
    }

    fn initialiser(&mut self, x: u32, init: &Option<Expr>) -> Result<(), NoMemory>
        requires base { self.old.base ≤ MAX_VARIABLES }
        requires sound { is_sound_init self.old.base init.now ≡ true }
        ensures { OnOk result (self.new ≡ goes_on self.old (init_instrs self.old.base x (init.now ∷ []))) }
    {
        match init {
            None => Ok(()),
            Some(e) => expression(&mut self.instrs, x, self.base, e),
        }
    }

    /// Appends the initialisers of all variables.
    pub fn initialisers(&mut self, inits: &[Option<Expr>]) -> Result<(), NoMemory>
        requires base { self.old.base ≤ MAX_VARIABLES }
        requires few { length inits.now ≤ MAX_VARIABLES }
        requires sound { list_all (is_sound_init self.old.base) inits.now ≡ true }
        ensures { OnOk result (self.new ≡ goes_on self.old (init_instrs self.old.base 0 inits.now)) }
    {
        let mut x = 0u32;
        for init in inits {
            self.initialiser(x, init)?;
            x += 1;
        }
        Ok(())
    }

    /// Ends the fiber under way by a `printf`, whose end starts the next fiber. Where no number is left for that fiber,
    /// memory was wanted.
    fn print(&mut self, string: &Text, es: &List<Expr>) -> Result<(), NoMemory>
        requires base { self.old.base ≤ MAX_VARIABLES }
        requires few { length es.now ≤ MAX_PRINT_ARGUMENTS }
        requires sound { list_all (is_sound self.old.base) es.now ≡ true }
        ensures { OnOk result (Continues (Print string.now es.now) self.old self.new) }
    {
        if self.done.len() >= u32::MAX as usize {
            return Err(NoMemory);
        }
        let next = self.done.len() as u32 + 1;
        arguments(&mut self.instrs, self.base, es.as_slice())?;
        let cells = cells_from(self.alloc, self.base, es.len() as u32)?;
        self.instrs.push(Instr::InitSync(0, 1, 1, next))?;
        self.instrs
            .push(Instr::PrintSync(string.copy(self.alloc)?, cells, 0))?;
        self.instrs.push(Instr::EndFiber)?;
        self.end_fiber()
    }

    fn statement(&mut self, stmt: &Stmt) -> Result<(), NoMemory>
        requires base { self.old.base ≤ MAX_VARIABLES }
        requires sound { is_sound_stmt self.old.base stmt.now ≡ true }
        ensures { OnOk result (Continues stmt.now self.old self.new) }
    {
        match stmt {
            Stmt::Set(x, e) => expression(&mut self.instrs, *x, self.base, e),
            Stmt::Print(string, es) => self.print(string, es),
        }
    }

    /// Appends statements.
    pub fn statements(&mut self, stmts: &[Stmt]) -> Result<(), NoMemory>
        requires base { self.old.base ≤ MAX_VARIABLES }
        requires sound { list_all (is_sound_stmt self.old.base) stmts.now ≡ true }
        ensures base { OnOk result (self.new.base ≡ self.old.base) }
        ensures fibers { OnOk result ((r : Expr) → to_come self.new [] r ≡ to_come self.old stmts.now r) }
    {
        for stmt in stmts {
            self.statement(stmt)?;
        }
        Ok(())
    }

    /// Appends the result, and gives all fibers.
    pub fn finish(mut self, e: &Expr) -> Result<List<Fiber>, NoMemory>
        requires base { self.base ≤ MAX_VARIABLES }
        requires few { operators e.now ≤ MAX_MARKS }
        ensures { IfOk result (λ fs. fs ≡ to_come self [] e.now) }
    {
        expression(&mut self.instrs, self.base, self.base, e)?;
        let mut cells = List::new(self.alloc);
        cells.push(self.base)?;
        self.instrs.push(Instr::EndFunction(cells))?;
        self.end_fiber()?;
        Ok(self.done)
    }
}
