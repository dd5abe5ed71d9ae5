//! The functions that statements and declarations call, in source order.
ghost use Rattle.std.specs.Prelude.{◌≡◌, ◌++◌, map, option_map, OnOk};
ghost use Rattle.ec_calls.specs.Effects.{effects, assign_effects, of_option, doing, statement_doing, of_declaration, all_of, or_nothing};
ghost use Rattle.ec_calls.specs.Seen.{callees, for_header_effects, forall_header_effects};

use crate::called::Called;
use ec_base::Boxed;
use ec_syntax::{Assign, Body, Decl, Expr, Stmt, StmtKind};
use std::alloc::AllocError;

impl<'a> Called<'a> {
    fn assign(&mut self, a: &'a Assign) -> Result<(), AllocError>
        ensures { OnOk result (self.new ≡ self.old ++ callees (assign_effects a.now)) }
    {
        self.both(&a.left, &a.right)
    }

    fn assign_if_any(&mut self, a: &'a Option<Boxed<Assign>>) -> Result<(), AllocError>
        ensures { OnOk result (self.new ≡ self.old ++ callees (of_option assign_effects a.now)) }
    {
        match a {
            None => Ok(()),
            Some(a) => self.assign(a.get()),
        }
    }

    fn if_any(&mut self, e: &'a Option<Boxed<Expr>>) -> Result<(), AllocError>
        ensures { OnOk result (self.new ≡ self.old ++ callees (of_option effects e.now)) }
    {
        match e {
            None => Ok(()),
            Some(e) => self.expression(e.get()),
        }
    }

    fn for_header(
        &mut self,
        first: &'a Option<Boxed<Assign>>,
        test: &'a Option<Boxed<Expr>>,
        next: &'a Option<Boxed<Assign>>,
    ) -> Result<(), AllocError>
        ensures { OnOk result (self.new ≡ self.old ++ callees (for_header_effects first.now test.now next.now)) }
    {
        self.assign_if_any(first)?;
        self.if_any(test)?;
        self.assign_if_any(next)
    }

    fn forall_header(
        &mut self,
        first: &'a Assign,
        test: &'a Expr,
        next: &'a Assign,
    ) -> Result<(), AllocError>
        ensures { OnOk result (self.new ≡ self.old ++ callees (forall_header_effects first.now test.now next.now)) }
    {
        self.assign(first)?;
        self.expression(test)?;
        self.assign(next)
    }

    fn declarations(&mut self, declarations: &'a [Decl]) -> Result<(), AllocError>
        ensures { OnOk result (self.new ≡ self.old ++ callees (all_of (map of_declaration declarations.now)).effects) }
    {
        for d in declarations {
            self.if_any(&d.init)?;
        }
        Ok(())
    }

    /// What is called anywhere in a body.
    #[cycle(statements)]
    pub(crate) fn body(&mut self, body: &'a Body) -> Result<(), AllocError>
        ensures { OnOk result (self.new ≡ self.old ++ callees (doing body.now).effects) }
    {
        self.declarations(body.decls.as_slice())?;
        self.statements(body.stmts.as_slice())
    }

    #[cycle(statements)]
    fn statements(&mut self, statements: &'a [Stmt]) -> Result<(), AllocError>
        ensures { OnOk result (self.new ≡ self.old ++ callees (all_of (map statement_doing statements.now)).effects) }
    {
        for s in statements {
            self.statement(s)?;
        }
        Ok(())
    }

    #[cycle(statements)]
    fn statement(&mut self, s: &'a Stmt) -> Result<(), AllocError>
        ensures { OnOk result (self.new ≡ self.old ++ callees (statement_doing s.now).effects) }
    {
        match &s.kind {
            StmtKind::Empty => Ok(()),
            StmtKind::Body(body) => self.body(body),
            StmtKind::Par(branches) => self.statements(branches.as_slice()),
            StmtKind::If(e, a, b) => {
                self.expression(e.get())?;
                self.statement(a.get())?;
                self.otherwise(b)
            }
            StmtKind::While(e, a) => {
                self.expression(e.get())?;
                self.statement(a.get())
            }
            StmtKind::For(first, test, next, a) => {
                self.for_header(first, test, next)?;
                self.statement(a.get())
            }
            StmtKind::Forall(first, test, next, a) => {
                self.forall_header(first.get(), test.get(), next.get())?;
                self.statement(a.get())
            }
            StmtKind::Set(a) => self.assign(a.get()),
            StmtKind::Eval(call) => self.call(call.get()),
            StmtKind::WriteTo(a, b) => self.both(a.get(), b.get()),
            StmtKind::AddTo(a, b) => self.both(a.get(), b.get()),
            StmtKind::Print(_, values) => self.all(values.as_slice()),
            StmtKind::Return(None) => Ok(()),
            StmtKind::Return(Some(e)) => self.expression(e.get()),
        }
    }

    #[cycle(statements)]
    fn otherwise(&mut self, s: &'a Option<Boxed<Stmt>>) -> Result<(), AllocError>
        ensures { OnOk result (self.new ≡ self.old ++ callees (or_nothing (option_map statement_doing s.now)).effects) }
    {
        match s {
            None => Ok(()),
            Some(s) => self.statement(s.get()),
        }
    }
}
