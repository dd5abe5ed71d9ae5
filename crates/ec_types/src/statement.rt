//! What statements are refused for.
ghost use Rattle.std.specs.Prelude.{map, option_map};
ghost use Rattle.ec_types.specs.Context.{inside_of};
ghost use Rattle.ec_types.specs.Judged.{Gives, every};
ghost use Rattle.ec_types.specs.Seen.{context};
ghost use Rattle.ec_types.specs.Statements.{for_header, forall_header, declares, statement, otherwise, body, each_in};

use crate::judge::Judge;
use crate::judged::{Judged, also};
use ec_base::{Boxed, Span};
use ec_syntax::{Assign, Body, Decl, Expr, Stmt, StmtKind};

impl<'a> Judge<'a> {
    fn for_header(
        &self,
        at: Span,
        first: &Option<Boxed<Assign>>,
        test: &Option<Boxed<Expr>>,
        last: &Option<Boxed<Assign>>,
    ) -> Judged<()>
        ensures { Gives result (for_header (context self.now) at first.now test.now last.now) }
    {
        let last = self.optional_assigned(at, last);
        let test = self.optional_condition(at, test);
        also(self.optional_assigned(at, first), also(test, last))
    }

    fn forall_header(&self, at: Span, first: &Assign, test: &Expr, last: &Assign) -> Judged<()>
        ensures { Gives result (forall_header (context self.now) at first.now test.now last.now) }
    {
        let form = self.header(first, test, last);
        let last = self.assigned(at, last);
        let test = self.condition(at, test);
        also(self.assigned(at, first), also(test, also(last, form)))
    }

    /// Each variable is in scope from its own declaration on.
    fn declares(&self, decls: &'a [Decl]) -> Judged<()>
        ensures { Gives result (declares decls.now (context self.now)) }
    {
        match decls.split_first() {
            None => Ok(()),
            Some((d, rest)) => {
                let inner = self.with(d)?;
                also(inner.declaration(d), inner.declares(rest))
            }
        }
    }

    #[cycle(statement)]
    pub(crate) fn statement(&self, s: &'a Stmt) -> Judged<()>
        ensures { Gives result (statement s.now (context self.now)) }
    {
        let at = s.at;
        match &s.kind {
            StmtKind::Empty => Ok(()),
            StmtKind::Body(b) => self.body(b),
            StmtKind::Par(branches) => self.branches(branches.as_slice()),
            StmtKind::If(test, first, second) => {
                let branches = also(self.statement(first.get()), self.otherwise(second));
                also(self.condition(at, test.get()), branches)
            }
            StmtKind::While(test, s) => also(
                self.condition(at, test.get()),
                self.statement(s.get()),
            ),
            StmtKind::For(first, test, last, s) => {
                let inner = self.statement(s.get());
                also(self.for_header(at, first, test, last), inner)
            }
            StmtKind::Forall(first, test, last, s) => {
                let inner = self.iteration(s.get());
                also(
                    self.forall_header(at, first.get(), test.get(), last.get()),
                    inner,
                )
            }
            StmtKind::Set(a) => self.assigned(at, a.get()),
            StmtKind::Eval(call) => self.evaluated(call.get()),
            StmtKind::WriteTo(to, e) => self.sends(at, to.get(), e.get()),
            StmtKind::AddTo(to, e) => self.sends(at, to.get(), e.get()),
            StmtKind::Print(string, all) => self.prints(at, string, all.as_slice()),
            StmtKind::Return(e) => self.returns(at, e),
        }
    }

    /// The second branch of an `if`.
    #[cycle(statement)]
    fn otherwise(&self, s: &'a Option<Boxed<Stmt>>) -> Judged<()>
        ensures { Gives result (otherwise (option_map statement s.now) (context self.now)) }
    {
        match s {
            None => Ok(()),
            Some(s) => self.statement(s.get()),
        }
    }

    #[cycle(statement)]
    pub(crate) fn body(&self, b: &'a Body) -> Judged<()>
        ensures { Gives result (body b.now (context self.now)) }
    {
        let inner = self.with_all(b.decls.as_slice())?;
        let declares = self.declares(b.decls.as_slice());
        also(declares, inner.statements(b.stmts.as_slice()))
    }

    /// The branches of a parallel sequence.
    #[cycle(statement)]
    fn branches(&self, all: &'a [Stmt]) -> Judged<()>
        ensures { Gives result (every (each_in (inside_of (context self.now)) (map statement all.now))) }
    {
        let inner = self.inside()?;
        inner.statements(all)
    }

    /// The body of a `forall`.
    #[cycle(statement)]
    fn iteration(&self, s: &'a Stmt) -> Judged<()>
        ensures { Gives result (statement s.now (inside_of (context self.now))) }
    {
        let inner = self.inside()?;
        inner.statement(s)
    }

    #[cycle(statement)]
    fn statements(&self, all: &'a [Stmt]) -> Judged<()>
        ensures { Gives result (every (each_in (context self.now) (map statement all.now))) }
    {
        let mut so_far: Judged<()> = Ok(());
        for s in all {
            so_far = also(so_far, self.statement(s));
        }
        so_far
    }
}
