//! Statements in which no others stand, and declarations.
ghost use Rattle.std.specs.Prelude.{◌≡◌, map, option_map, OnOk};
ghost use Rattle.ec_resolve.specs.Erased as erased;
ghost use Rattle.ec_simple.specs.Puts.{PutsPlain};
ghost use Rattle.ec_simple.specs.Seen.{scope};
ghost use Rattle.ec_simple.specs.Statements as low;
ghost use Rattle.ec_types.specs.Meaning.Tree as tree;

use crate::call::called;
use crate::form::{SExpr, SStmt, SVar};
use crate::numbered::Numbered;
use crate::scope::Scope;
use ec_base::{Boxed, List, Span, Text};
use ec_resolve::{Assignment, Declared, Invocation, Term};
use std::alloc::AllocError;

/// What a variable is at first.
fn first(pointer: bool) -> SExpr
    ensures { result ≡ low.first (erased.first_value pointer) }
{
    if pointer {
        SExpr::Null
    } else {
        SExpr::Number(0)
    }
}

impl Scope<'_, '_> {
    pub(crate) fn assignment(
        &self,
        a: &Assignment,
        code: &mut List<SStmt>,
        vars: &mut Numbered<SVar>,
    ) -> Result<(), AllocError>
        ensures { OnOk result (PutsPlain (low.low_assignment (scope self.now) (erased.assignment a.now) vars.old.next) code.old code.new vars.old vars.new) }
    {
        match a {
            Assignment::SetVar(_, x, e) => {
                let y = self.expression(e, code, vars)?;
                code.push(SStmt::Set(self.place(*x)?, SExpr::Var(y)))
            }
            Assignment::Store(p, e) => {
                let to = self.access(p, code, vars)?;
                let x = self.expression(e, code, vars)?;
                code.push(SStmt::Store(to, x))
            }
            Assignment::Copy(p, q) => {
                let to = self.access(p, code, vars)?;
                let from = self.access(q, code, vars)?;
                let to = Boxed::new(self.alloc, to)?;
                code.push(SStmt::Copy(to, Boxed::new(self.alloc, from)?))
            }
        }
    }

    pub(crate) fn optional(
        &self,
        a: &Option<Boxed<Assignment>>,
        code: &mut List<SStmt>,
        vars: &mut Numbered<SVar>,
    ) -> Result<(), AllocError>
        ensures { OnOk result (PutsPlain (low.low_optional (scope self.now) (option_map erased.assignment a.now) vars.old.next) code.old code.new vars.old vars.new) }
    {
        match a {
            None => Ok(()),
            Some(a) => self.assignment(a.get(), code, vars),
        }
    }

    /// 0 or NULL, and then its initialiser.
    fn declaration(
        &self,
        d: &Declared,
        code: &mut List<SStmt>,
        vars: &mut Numbered<SVar>,
    ) -> Result<(), AllocError>
        ensures { OnOk result (PutsPlain (low.low_declaration (scope self.now) (erased.declaration d.now) vars.old.next) code.old code.new vars.old vars.new) }
    {
        match d {
            Declared::Plain(x, pointer, e) => {
                let place = self.place(*x)?;
                code.push(SStmt::Set(place, first(*pointer)))?;
                match e {
                    None => Ok(()),
                    Some(e) => {
                        let y = self.expression(e.get(), code, vars)?;
                        code.push(SStmt::Set(place, SExpr::Var(y)))
                    }
                }
            }
            Declared::Shared(x) => {
                let place = self.place(*x)?;
                code.push(SStmt::Share(place, self.variable(*x).at))
            }
        }
    }

    pub(crate) fn declarations(
        &self,
        all: &[Declared],
        code: &mut List<SStmt>,
        vars: &mut Numbered<SVar>,
    ) -> Result<(), AllocError>
        ensures { OnOk result (PutsPlain (low.low_declarations (scope self.now) (map erased.declaration all.now) vars.old.next) code.old code.new vars.old vars.new) }
    {
        for d in all {
            self.declaration(d, code, vars)?;
        }
        Ok(())
    }

    /// A call whose result isn't used.
    pub(crate) fn evaluated(
        &self,
        i: &Invocation,
        code: &mut List<SStmt>,
        vars: &mut Numbered<SVar>,
    ) -> Result<(), AllocError>
        ensures { OnOk result (PutsPlain (low.low_evaluated (scope self.now) (erased.invocation i.now) vars.old.next) code.old code.new vars.old vars.new) }
    {
        let callee = self.call(i, code, vars)?;
        if self.is_void(i.function) {
            let call = callee.into_plain(self.alloc, List::new(self.alloc))?;
            code.push(SStmt::Call(call))
        } else {
            let pointer = self.gives(i.function);
            called(self.alloc, pointer, callee, code, vars)?;
            Ok(())
        }
    }

    pub(crate) fn written(
        &self,
        at: Span,
        p: &Term,
        e: &Term,
        code: &mut List<SStmt>,
        vars: &mut Numbered<SVar>,
    ) -> Result<(), AllocError>
        ensures { OnOk result (PutsPlain (low.low_stmt (scope self.now) (tree.WriteTo at (erased.expression p.now) (erased.expression e.now)) vars.old.next 0) code.old code.new vars.old vars.new) }
    {
        let to = self.expression(p, code, vars)?;
        let x = self.expression(e, code, vars)?;
        code.push(SStmt::Write(to, x, at))
    }

    pub(crate) fn added(
        &self,
        at: Span,
        p: &Term,
        e: &Term,
        code: &mut List<SStmt>,
        vars: &mut Numbered<SVar>,
    ) -> Result<(), AllocError>
        ensures { OnOk result (PutsPlain (low.low_stmt (scope self.now) (tree.AddTo at (erased.expression p.now) (erased.expression e.now)) vars.old.next 0) code.old code.new vars.old vars.new) }
    {
        let to = self.expression(p, code, vars)?;
        let x = self.expression(e, code, vars)?;
        code.push(SStmt::Add(to, x, at))
    }

    pub(crate) fn printed(
        &self,
        string: &Text,
        all: &[Term],
        code: &mut List<SStmt>,
        vars: &mut Numbered<SVar>,
    ) -> Result<(), AllocError>
        ensures { OnOk result (PutsPlain (low.low_stmt (scope self.now) (tree.Print string.now (erased.expressions all.now)) vars.old.next 0) code.old code.new vars.old vars.new) }
    {
        let values = self.expressions(all, code, vars)?;
        code.push(SStmt::Print(string.copy(self.alloc)?, values))
    }

    pub(crate) fn returned(
        &self,
        e: &Option<Boxed<Term>>,
        code: &mut List<SStmt>,
        vars: &mut Numbered<SVar>,
    ) -> Result<(), AllocError>
        ensures { OnOk result (PutsPlain (low.low_stmt (scope self.now) (tree.Return (erased.optional e.now)) vars.old.next 0) code.old code.new vars.old vars.new) }
    {
        match e {
            None => code.push(SStmt::Return(None)),
            Some(e) => {
                let x = self.expression(e.get(), code, vars)?;
                code.push(SStmt::Return(Some(x)))
            }
        }
    }
}
