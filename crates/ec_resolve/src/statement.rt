//! Statements.
ghost use Rattle.std.specs.Prelude.{◌≡◌, map, option_map, IfOk};
ghost use Rattle.ec_types.specs.Meaning.Resolution as resolution;
ghost use Rattle.ec_types.specs.Meaning.Tree as tree;
ghost use Rattle.ec_resolve.specs.Erased as erased;
ghost use Rattle.ec_resolve.specs.Seen.{scope};

use crate::action::{Action, Block, ForHeader, ForallHeader};
use crate::scope::Scope;
use ec_base::{Boxed, List, Text};
use ec_syntax::{Assign, Body, Expr, Stmt, StmtKind};
use std::alloc::AllocError;

impl Scope<'_> {
    fn for_header(
        &self,
        first: &Option<Boxed<Assign>>,
        test: &Option<Boxed<Expr>>,
        last: &Option<Boxed<Assign>>,
    ) -> Result<Boxed<ForHeader>, AllocError>
        ensures first { IfOk result (λ h. option_map erased.assignment h.first ≡ option_map (resolution.assignment (scope self.now)) first.now) }
        ensures test { IfOk result (λ h. erased.optional h.test ≡ resolution.initial (scope self.now) test.now) }
        ensures last { IfOk result (λ h. option_map erased.assignment h.last ≡ option_map (resolution.assignment (scope self.now)) last.now) }
    {
        let first = self.optional_assignment(first)?;
        let test = self.optional(test)?;
        let last = self.optional_assignment(last)?;
        Boxed::new(self.alloc, ForHeader { first, test, last })
    }

    fn forall_header(
        &self,
        first: &Assign,
        test: &Expr,
        last: &Assign,
    ) -> Result<Boxed<ForallHeader>, AllocError>
        ensures first { IfOk result (λ h. erased.assignment h.first ≡ resolution.assignment (scope self.now) first.now) }
        ensures test { IfOk result (λ h. erased.expression h.test ≡ resolution.valued_as (scope self.now) test.now) }
        ensures last { IfOk result (λ h. erased.assignment h.last ≡ resolution.assignment (scope self.now) last.now) }
    {
        let first = self.assignment(first)?;
        let test = self.value(test)?;
        let last = self.assignment(last)?;
        Boxed::new(self.alloc, ForallHeader { first, test, last })
    }

    fn print(&self, string: &Text, all: &[Expr]) -> Result<Boxed<Action>, AllocError>
        ensures { IfOk result (λ a. erased.statement a ≡ tree.Print string.now (resolution.value_list (scope self.now) all.now)) }
    {
        let string = string.copy(self.alloc)?;
        let values = self.values(all)?;
        Boxed::new(self.alloc, Action::Print(string, values))
    }

    #[cycle(statement)]
    fn statement(&self, s: &Stmt) -> Result<Boxed<Action>, AllocError>
        ensures { IfOk result (λ a. erased.statement a ≡ resolution.statement (scope self.now) s.now) }
    {
        let at = s.at;
        match &s.kind {
            StmtKind::Empty => Boxed::new(self.alloc, Action::Skip),
            StmtKind::Body(b) => Boxed::new(self.alloc, Action::Block(self.body(b)?)),
            StmtKind::Par(branches) => {
                let branches = self.statements(branches.as_slice())?;
                Boxed::new(self.alloc, Action::Par(at, branches))
            }
            StmtKind::If(test, first, second) => {
                let test = self.value(test.get())?;
                let first = self.statement(first.get())?;
                let second = self.otherwise(second)?;
                Boxed::new(self.alloc, Action::If(test, first, second))
            }
            StmtKind::While(test, inner) => {
                let test = self.value(test.get())?;
                let inner = self.statement(inner.get())?;
                Boxed::new(self.alloc, Action::While(test, inner))
            }
            StmtKind::For(first, test, last, inner) => {
                let header = self.for_header(first, test, last)?;
                let inner = self.statement(inner.get())?;
                Boxed::new(self.alloc, Action::For(at, header, inner))
            }
            StmtKind::Forall(first, test, last, inner) => {
                let header = self.forall_header(first.get(), test.get(), last.get())?;
                let inner = self.statement(inner.get())?;
                Boxed::new(self.alloc, Action::Forall(at, header, inner))
            }
            StmtKind::Set(a) => Boxed::new(self.alloc, Action::Set(self.assignment(a.get())?)),
            StmtKind::Eval(call) => Boxed::new(self.alloc, Action::Eval(self.call(call.get())?)),
            StmtKind::WriteTo(to, e) => {
                let to = self.value(to.get())?;
                let e = self.value(e.get())?;
                Boxed::new(self.alloc, Action::WriteTo(at, to, e))
            }
            StmtKind::AddTo(to, e) => {
                let to = self.value(to.get())?;
                let e = self.value(e.get())?;
                Boxed::new(self.alloc, Action::AddTo(at, to, e))
            }
            StmtKind::Print(string, all) => self.print(string, all.as_slice()),
            StmtKind::Return(e) => Boxed::new(self.alloc, Action::Return(self.optional(e)?)),
        }
    }

    /// The second branch of an `if`.
    #[cycle(statement)]
    fn otherwise(&self, s: &Option<Boxed<Stmt>>) -> Result<Option<Boxed<Action>>, AllocError>
        ensures { IfOk result (λ a. option_map erased.statement a ≡ option_map (resolution.statement (scope self.now)) s.now) }
    {
        match s {
            None => Ok(None),
            Some(s) => Ok(Some(self.statement(s.get())?)),
        }
    }

    #[cycle(statement)]
    pub(crate) fn body(&self, b: &Body) -> Result<Block, AllocError>
        ensures { IfOk result (λ x. erased.block x ≡ resolution.body (scope self.now) b.now) }
    {
        let decls = self.declarations(b.decls.as_slice())?;
        let actions = self.statements(b.stmts.as_slice())?;
        Ok(Block { decls, actions })
    }

    #[cycle(statement)]
    fn statements(&self, all: &[Stmt]) -> Result<List<Action>, AllocError>
        ensures { IfOk result (λ l. map erased.statement l ≡ map (resolution.statement (scope self.now)) all.now) }
    {
        let mut actions = List::new(self.alloc);
        for s in all {
            actions.push(self.statement(s)?.into_inner())?;
        }
        Ok(actions)
    }
}
