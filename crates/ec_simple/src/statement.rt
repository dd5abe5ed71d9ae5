//! Statements, and the functions of branches and bodies in them.
ghost use Rattle.std.specs.Prelude.{[], ◌∷◌, option_map, IfOk, OnOk};
ghost use Rattle.ec_resolve.specs.Erased as erased;
ghost use Rattle.ec_simple.specs.Around.{Outlines, Becomes, branch_of};
ghost use Rattle.ec_simple.specs.Puts.{PutsStmt, PutsApart, PutsBranches};
ghost use Rattle.ec_simple.specs.Seen.{scope};
ghost use Rattle.ec_simple.specs.Statements as low;
ghost use Rattle.ec_simple.specs.Used.{used};
ghost use Rattle.ec_types.specs.Meaning.Tree as tree;

use crate::around::Around;
use crate::branch::direct_call;
use crate::form::{FuncKind, SBranch, SCall, SFunc, SStmt, SVar, VarUse};
use crate::numbered::{Numbered, sum};
use crate::places::Places;
use crate::scope::Scope;
use crate::uses::assignment_writes;
use ec_base::{Boxed, List, Span};
use ec_resolve::{Action, Block, ForHeader, ForallHeader};
use std::alloc::AllocError;

impl Scope<'_, '_> {
    #[cycle(statement)]
    fn statement(
        &self,
        s: &Action,
        code: &mut List<SStmt>,
        vars: &mut Numbered<SVar>,
        funcs: &mut Numbered<SFunc>,
    ) -> Result<(), AllocError>
        ensures { OnOk result (PutsStmt (low.low_stmt (scope self.now) (erased.statement s.now) vars.old.next funcs.old.next) code.old code.new vars.old vars.new funcs.old funcs.new) }
    {
        match s {
            Action::Skip => Ok(()),
            Action::Block(b) => self.block(b, code, vars, funcs),
            Action::Par(at, all) => {
                let branches = self.branches(*at, all.as_slice(), vars, funcs)?;
                code.push(SStmt::Par(*at, branches))
            }
            Action::If(e, s, other) => {
                let test = self.expression(e.get(), code, vars)?;
                let first = self.apart(s.get(), vars, funcs)?;
                let second = self.otherwise(other, vars, funcs)?;
                code.push(SStmt::If(test, first, second))
            }
            Action::While(e, s) => {
                let mut before = List::new(self.alloc);
                let test = self.expression(e.get(), &mut before, vars)?;
                let inside = self.apart(s.get(), vars, funcs)?;
                code.push(SStmt::Loop(before, test, inside))
            }
            Action::For(at, header, s) => {
                self.for_loop(*at, header.get(), s.get(), code, vars, funcs)
            }
            Action::Forall(at, header, s) => {
                self.forall_loop(*at, header.get(), s.get(), code, vars, funcs)
            }
            Action::Set(a) => self.assignment(a.get(), code, vars),
            Action::Eval(i) => self.evaluated(i.get(), code, vars),
            Action::WriteTo(at, p, e) => self.written(*at, p.get(), e.get(), code, vars),
            Action::AddTo(at, p, e) => self.added(*at, p.get(), e.get(), code, vars),
            Action::Print(string, all) => self.printed(string, all.as_slice(), code, vars),
            Action::Return(e) => self.returned(e, code, vars),
        }
    }

    /// A statement's code, apart.
    #[cycle(statement)]
    fn apart(
        &self,
        s: &Action,
        vars: &mut Numbered<SVar>,
        funcs: &mut Numbered<SFunc>,
    ) -> Result<List<SStmt>, AllocError>
        ensures { IfOk result (λ code. PutsApart (low.low_stmt (scope self.now) (erased.statement s.now) vars.old.next funcs.old.next) code vars.old vars.new funcs.old funcs.new) }
    {
        let mut code = List::new(self.alloc);
        self.statement(s, &mut code, vars, funcs)?;
        Ok(code)
    }

    #[cycle(statement)]
    fn otherwise(
        &self,
        s: &Option<Boxed<Action>>,
        vars: &mut Numbered<SVar>,
        funcs: &mut Numbered<SFunc>,
    ) -> Result<List<SStmt>, AllocError>
        ensures { IfOk result (λ code. PutsApart (low.low_else (scope self.now) (tree.otherwise (option_map erased.statement s.now)) vars.old.next funcs.old.next) code vars.old vars.new funcs.old funcs.new) }
    {
        match s {
            None => Ok(List::new(self.alloc)),
            Some(s) => self.apart(s.get(), vars, funcs),
        }
    }

    #[cycle(statement)]
    pub(crate) fn block(
        &self,
        b: &Block,
        code: &mut List<SStmt>,
        vars: &mut Numbered<SVar>,
        funcs: &mut Numbered<SFunc>,
    ) -> Result<(), AllocError>
        ensures { OnOk result (PutsStmt (low.low_stmt (scope self.now) (tree.Block (erased.block b.now).0 (erased.block b.now).1) vars.old.next funcs.old.next) code.old code.new vars.old vars.new funcs.old funcs.new) }
    {
        self.declarations(b.decls.as_slice(), code, vars)?;
        self.statements(b.actions.as_slice(), code, vars, funcs)
    }

    #[cycle(statement)]
    fn statements(
        &self,
        all: &[Action],
        code: &mut List<SStmt>,
        vars: &mut Numbered<SVar>,
        funcs: &mut Numbered<SFunc>,
    ) -> Result<(), AllocError>
        ensures { OnOk result (PutsStmt (low.low_stmts (scope self.now) (erased.statements all.now) vars.old.next funcs.old.next) code.old code.new vars.old vars.new funcs.old funcs.new) }
    {
        for s in all {
            self.statement(s, code, vars, funcs)?;
        }
        Ok(())
    }

    #[cycle(statement)]
    fn for_loop(
        &self,
        at: Span,
        header: &ForHeader,
        s: &Action,
        code: &mut List<SStmt>,
        vars: &mut Numbered<SVar>,
        funcs: &mut Numbered<SFunc>,
    ) -> Result<(), AllocError>
        ensures { OnOk result
            (PutsStmt
            (low.low_stmt (scope self.now)
            (tree.For at (option_map erased.assignment header.now.first) (erased.optional header.now.test) (option_map erased.assignment header.now.last) (erased.statement s.now))
            vars.old.next funcs.old.next)
            code.old code.new vars.old vars.new funcs.old funcs.new) }
    {
        self.optional(&header.first, code, vars)?;
        let mut before = List::new(self.alloc);
        let test = self.part(at, 1, &header.test, &mut before, vars)?;
        let mut inside = self.apart(s, vars, funcs)?;
        self.optional(&header.last, &mut inside, vars)?;
        code.push(SStmt::Loop(before, test, inside))
    }

    #[cycle(statement)]
    fn forall_loop(
        &self,
        at: Span,
        header: &ForallHeader,
        s: &Action,
        code: &mut List<SStmt>,
        vars: &mut Numbered<SVar>,
        funcs: &mut Numbered<SFunc>,
    ) -> Result<(), AllocError>
        ensures { OnOk result
            (PutsStmt
            (low.low_stmt (scope self.now)
            (tree.Forall at (erased.assignment header.now.first) (erased.expression header.now.test) (erased.assignment header.now.last) (erased.statement s.now))
            vars.old.next funcs.old.next)
            code.old code.new vars.old vars.new funcs.old funcs.new) }
    {
        let mut set = List::new(self.alloc);
        assignment_writes(header.first.get(), &mut set)?;
        let body = self.outline(at, FuncKind::Body, set.as_slice(), s, funcs)?;
        let forall = self.forall(at, header, body, vars)?;
        code.push(SStmt::Forall(forall))
    }

    #[cycle(statement)]
    fn branches(
        &self,
        at: Span,
        all: &[Action],
        vars: &mut Numbered<SVar>,
        funcs: &mut Numbered<SFunc>,
    ) -> Result<List<SBranch>, AllocError>
        ensures { IfOk result (λ bs. PutsBranches (low.low_branches (scope self.now) at (erased.statements all.now) vars.old.next funcs.old.next) bs vars.old vars.new funcs.old funcs.new) }
    {
        let mut branches = List::new(self.alloc);
        for s in all {
            branches.push(self.branch(at, s, vars, funcs)?)?;
        }
        Ok(branches)
    }

    /// A branch is the activation of its call, or becomes a function.
    #[cycle(statement)]
    fn branch(
        &self,
        at: Span,
        s: &Action,
        vars: &mut Numbered<SVar>,
        funcs: &mut Numbered<SFunc>,
    ) -> Result<SBranch, AllocError>
        ensures { IfOk result (λ b. PutsBranches (branch_of (scope self.now) at (erased.statement s.now) vars.old.next funcs.old.next) (b ∷ []) vars.old vars.new funcs.old funcs.new) }
    {
        match direct_call(s) {
            Some(direct) => self.call_branch(&direct, vars),
            None => {
                let call = self.outline(at, FuncKind::Branch, &[], s, funcs)?;
                Ok(SBranch {
                    before: List::new(self.alloc),
                    call,
                })
            }
        }
    }

    /// A branch or body becomes a function, which stands before those inside it.
    #[cycle(statement)]
    fn outline(
        &self,
        at: Span,
        kind: FuncKind,
        more: &[VarUse],
        s: &Action,
        funcs: &mut Numbered<SFunc>,
    ) -> Result<Boxed<SCall>, AllocError>
        ensures { IfOk result (λ call. Outlines (scope self.now) at kind (used more.now) (erased.statement s.now) call funcs.old funcs.new) }
    {
        let around = self.around(more, s)?;
        let call = self.outlined_call(at, funcs.next, &around)?;
        self.inner(kind, s, &around, funcs)?;
        Ok(call)
    }

    #[cycle(statement)]
    fn inner(
        &self,
        kind: FuncKind,
        s: &Action,
        around: &Around,
        funcs: &mut Numbered<SFunc>,
    ) -> Result<(), AllocError>
        ensures { OnOk result (Becomes (scope self.now) kind (erased.statement s.now) around.now funcs.old funcs.new) }
    {
        let mut vars = self.own_variables(around.own.as_slice())?;
        let mut code = List::new(self.alloc);
        let mut inner = Numbered {
            all: List::new(self.alloc),
            next: sum(funcs.next, 1)?,
        };
        let own = List::from_slice(self.alloc, around.own.as_slice())?;
        let places = Places::of(self.alloc, self.variables.len(), own)?;
        let scope = self.inside(&places);
        scope.statement(s, &mut code, &mut vars, &mut inner)?;
        let f = scope.outlined(kind, funcs.next, around, vars.all, code)?;
        funcs.push(f)?;
        funcs.append(inner.all)
    }
}
