//! What is found in statements: the variables that they read, set and declare.
ghost use Rattle.std.specs.Prelude.{◌≡◌, [], ◌∷◌, map, ◌++◌, option_map, IfOk, OnOk};
ghost use Rattle.ec_resolve.specs.Erased as erased;
ghost use Rattle.ec_types.specs.Meaning.Tree as tree;
ghost use Rattle.ec_simple.specs.Used.{Finds, used};
ghost use Rattle.ec_simple.specs.Uses as uses;

use crate::form::VarUse;
use crate::numbered::narrow;
use crate::uses::{assignment_reads, assignment_writes, call_reads, list_reads, part_reads, reads};
use ec_base::{Boxed, List};
use ec_resolve::{Action, Assignment, Block, Declared};
use std::alloc::{AllocError, Global};

/// What was found so far.
#[derive(Drop)]
pub(crate) struct Found {
    pub(crate) reads: List<VarUse>,
    pub(crate) writes: List<VarUse>,
    pub(crate) declared: List<u32>,
}

impl Found {
    fn assignment(&mut self, a: &Assignment) -> Result<(), AllocError>
        ensures { OnOk result (Finds (uses.assignment_reads (erased.assignment a.now)) (uses.assignment_writes (erased.assignment a.now)) [] self.old self.new) }
    {
        assignment_reads(a, &mut self.reads)?;
        assignment_writes(a, &mut self.writes)
    }

    fn optional(&mut self, a: &Option<Boxed<Assignment>>) -> Result<(), AllocError>
        ensures { OnOk result
            (Finds (uses.of_some uses.assignment_reads (option_map erased.assignment a.now))
            (uses.of_some uses.assignment_writes (option_map erased.assignment a.now)) [] self.old self.new) }
    {
        match a {
            None => Ok(()),
            Some(a) => self.assignment(a.get()),
        }
    }

    fn declaration(&mut self, d: &Declared) -> Result<(), AllocError>
        ensures { OnOk result (Finds (uses.decl_reads (erased.declaration d.now)) [] (uses.declared (erased.declaration d.now) ∷ []) self.old self.new) }
    {
        match d {
            Declared::Plain(x, _, e) => {
                self.declared.push(narrow(*x)?)?;
                part_reads(e, &mut self.reads)
            }
            Declared::Shared(x) => self.declared.push(narrow(*x)?),
        }
    }

    fn declarations(&mut self, all: &[Declared]) -> Result<(), AllocError>
        ensures { OnOk result
            (Finds (uses.of_all uses.decl_reads (map erased.declaration all.now)) []
            (map uses.declared (map erased.declaration all.now)) self.old self.new) }
    {
        for d in all {
            self.declaration(d)?;
        }
        Ok(())
    }

    #[cycle(found)]
    fn statement(&mut self, s: &Action) -> Result<(), AllocError>
        ensures { OnOk result
            (Finds (uses.stmt_reads (erased.statement s.now)) (uses.stmt_writes (erased.statement s.now)) (uses.declares (erased.statement s.now))
            self.old self.new) }
    {
        match s {
            Action::Skip => Ok(()),
            Action::Block(b) => self.block(b),
            Action::Par(_, all) => self.statements(all.as_slice()),
            Action::If(e, s, other) => {
                reads(e.get(), &mut self.reads)?;
                self.statement(s.get())?;
                self.otherwise(other)
            }
            Action::While(e, s) => {
                reads(e.get(), &mut self.reads)?;
                self.statement(s.get())
            }
            Action::For(_, header, s) => {
                self.optional(&header.get().first)?;
                part_reads(&header.get().test, &mut self.reads)?;
                self.optional(&header.get().last)?;
                self.statement(s.get())
            }
            Action::Forall(_, header, s) => {
                self.assignment(header.get().first.get())?;
                reads(header.get().test.get(), &mut self.reads)?;
                self.assignment(header.get().last.get())?;
                self.statement(s.get())
            }
            Action::Set(a) => self.assignment(a.get()),
            Action::Eval(i) => call_reads(i.get(), &mut self.reads),
            Action::WriteTo(_, p, e) | Action::AddTo(_, p, e) => {
                reads(p.get(), &mut self.reads)?;
                reads(e.get(), &mut self.reads)
            }
            Action::Print(_, all) => list_reads(all.as_slice(), &mut self.reads),
            Action::Return(e) => part_reads(e, &mut self.reads),
        }
    }

    #[cycle(found)]
    fn otherwise(&mut self, s: &Option<Boxed<Action>>) -> Result<(), AllocError>
        ensures { OnOk result
            (Finds (uses.else_reads (tree.otherwise (option_map erased.statement s.now)))
            (uses.else_writes (tree.otherwise (option_map erased.statement s.now)))
            (uses.else_declares (tree.otherwise (option_map erased.statement s.now))) self.old self.new) }
    {
        match s {
            None => Ok(()),
            Some(s) => self.statement(s.get()),
        }
    }

    #[cycle(found)]
    fn block(&mut self, b: &Block) -> Result<(), AllocError>
        ensures { OnOk result
            (Finds (uses.of_all uses.decl_reads (erased.block b.now).0 ++ uses.stmts_reads (erased.block b.now).1) (uses.stmts_writes (erased.block b.now).1)
            (map uses.declared (erased.block b.now).0 ++ uses.all_declare (erased.block b.now).1) self.old self.new) }
    {
        self.declarations(b.decls.as_slice())?;
        self.statements(b.actions.as_slice())
    }

    #[cycle(found)]
    fn statements(&mut self, all: &[Action]) -> Result<(), AllocError>
        ensures { OnOk result
            (Finds (uses.stmts_reads (erased.statements all.now)) (uses.stmts_writes (erased.statements all.now)) (uses.all_declare (erased.statements all.now))
            self.old self.new) }
    {
        for s in all {
            self.statement(s)?;
        }
        Ok(())
    }
}

/// What is found in a statement.
pub(crate) fn found_in(alloc: Global, s: &Action) -> Result<Found, AllocError>
    ensures reads { IfOk result (λ f. used f.reads ≡ uses.stmt_reads (erased.statement s.now)) }
    ensures writes { IfOk result (λ f. used f.writes ≡ uses.stmt_writes (erased.statement s.now)) }
    ensures declared { IfOk result (λ f. f.declared ≡ uses.declares (erased.statement s.now)) }
{
    let mut found = Found {
        reads: List::new(alloc),
        writes: List::new(alloc),
        declared: List::new(alloc),
    };
    found.statement(s)?;
    Ok(found)
}
