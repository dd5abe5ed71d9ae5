//! Expressions and accesses.
ghost use Rattle.std.specs.Prelude.{IfOk};
ghost use Rattle.ec_resolve.specs.Erased as erased;
ghost use Rattle.ec_simple.specs.Expressions as low;
ghost use Rattle.ec_simple.specs.Puts.{Puts, PutsAll, PutsPlace, PutsCall, PutsPlacing, Decides, operand, argument};
ghost use Rattle.ec_simple.specs.Seen.{scope};

use crate::access::{field, item};
use crate::call::{Callee, called};
use crate::form::{SExpr, SPlace, SPlaceOf, SStmt, SVar};
use crate::numbered::{Numbered, narrow};
use crate::operator::{combined, unary};
use crate::scope::Scope;
use crate::temporary::{constant, created, load, read, set, temporary, truth};
use ec_base::{Boxed, List, Span};
use ec_resolve::{Invocation, Place, Placing, Term};
use std::alloc::AllocError;

impl Scope<'_, '_> {
    /// The variable that then has the value.
    #[cycle(expression)]
    pub(crate) fn expression(
        &self,
        e: &Term,
        code: &mut List<SStmt>,
        vars: &mut Numbered<SVar>,
    ) -> Result<u32, AllocError>
        ensures { IfOk result (λ x. Puts (low.low (scope self.now) (erased.expression e.now) vars.old.next) code.old code.new vars.old vars.new x) }
    {
        match e {
            Term::Number(at, n) => constant(*at, *n, code, vars),
            Term::Nil(at) => set(temporary(*at, Some(0)), SExpr::Null, code, vars),
            Term::Var(_, x) => self.place(*x),
            Term::Unary(at, op, a) => {
                let a = a.get();
                let x = self.expression(a, code, vars)?;
                let value = unary(*op, self.points(a), x);
                set(temporary(*at, None), value, code, vars)
            }
            Term::Binary(at, op, a, b) => {
                let a = a.get();
                let b = b.get();
                let x = self.expression(a, code, vars)?;
                let y = self.expression(b, code, vars)?;
                combined(self.any_points(a, b), *at, *op, x, y, code, vars)
            }
            Term::And(at, a, b) => {
                let test = self.expression(a.get(), code, vars)?;
                let (decided, x) = self.decided(*at, b.get(), vars)?;
                code.push(SStmt::If(test, decided, truth(self.alloc, x, 0)?))?;
                Ok(x)
            }
            Term::Or(at, a, b) => {
                let test = self.expression(a.get(), code, vars)?;
                let (decided, x) = self.decided(*at, b.get(), vars)?;
                code.push(SStmt::If(test, truth(self.alloc, x, 1)?, decided))?;
                Ok(x)
            }
            Term::Load(pointer, p) => {
                let from = self.access(p, code, vars)?;
                load(*pointer, from, code, vars)
            }
            Term::Call(i) => {
                let callee = self.call(i, code, vars)?;
                called(self.alloc, self.gives(i.function), callee, code, vars)
            }
            Term::New(a) => {
                let count = self.part(a.at, 1, &a.count, code, vars)?;
                created(a.at, a.shape, count, code, vars)
            }
            Term::ValueOf(at, a) => {
                let x = self.expression(a.get(), code, vars)?;
                read(*at, x, code, vars)
            }
        }
    }

    /// Code apart that sets one more variable to 1 or 0, and the variable.
    #[cycle(expression)]
    fn decided(
        &self,
        at: Span,
        e: &Term,
        vars: &mut Numbered<SVar>,
    ) -> Result<(List<SStmt>, u32), AllocError>
        ensures { IfOk result (λ r. Decides (low.low (scope self.now) (erased.expression e.now) vars.old.next) at r.0 vars.old vars.new r.1) }
    {
        let mut code = List::new(self.alloc);
        let y = self.expression(e, &mut code, vars)?;
        let x = vars.push(temporary(at, None))?;
        let yes = truth(self.alloc, x, 1)?;
        code.push(SStmt::If(y, yes, truth(self.alloc, x, 0)?))?;
        Ok((code, x))
    }

    /// What is missing is a number.
    #[cycle(expression)]
    pub(crate) fn part(
        &self,
        at: Span,
        n: i64,
        e: &Option<Boxed<Term>>,
        code: &mut List<SStmt>,
        vars: &mut Numbered<SVar>,
    ) -> Result<u32, AllocError>
        ensures { IfOk result (λ x. Puts (low.low_part (scope self.now) at n (erased.optional e.now) vars.old.next) code.old code.new vars.old vars.new x) }
    {
        match e {
            None => constant(at, n, code, vars),
            Some(e) => self.expression(e.get(), code, vars),
        }
    }

    /// The access that may then be made.
    #[cycle(expression)]
    pub(crate) fn access(
        &self,
        p: &Place,
        code: &mut List<SStmt>,
        vars: &mut Numbered<SVar>,
    ) -> Result<SPlaceOf, AllocError>
        ensures { IfOk result (λ q. PutsPlace (low.low_place (scope self.now) (erased.place p.now) vars.old.next) code.old code.new vars.old vars.new q) }
    {
        match p {
            Place::Element(at, _, pointer, index) => {
                let pointer = pointer.get();
                let base = self.expression(pointer, code, vars)?;
                let index = self.part(*at, 0, index, code, vars)?;
                Ok(self.element(*at, pointer, 0, base, index))
            }
            Place::Behind(at, _, f, pointer) => {
                let pointer = pointer.get();
                let base = self.expression(pointer, code, vars)?;
                let index = constant(*at, 0, code, vars)?;
                Ok(self.element(*at, pointer, f.number, base, index))
            }
            Place::Field(at, f, p) => {
                let element = self.access(p.get(), code, vars)?;
                Ok(field(*at, f.number, element))
            }
            Place::Item(at, p, index) => {
                let array = self.access(p.get(), code, vars)?;
                let index = self.expression(index.get(), code, vars)?;
                Ok(item(*at, array, index))
            }
        }
    }

    /// The call that may then be made: first its arguments, then the operand of its placement.
    #[cycle(expression)]
    pub(crate) fn call(
        &self,
        i: &Invocation,
        code: &mut List<SStmt>,
        vars: &mut Numbered<SVar>,
    ) -> Result<Callee, AllocError>
        ensures { IfOk result (λ r. PutsCall (low.low_call (scope self.now) (erased.invocation i.now) vars.old.next) code.old code.new vars.old vars.new r) }
    {
        let args = self.expressions(i.args.as_slice(), code, vars)?;
        let place = self.placing(&i.placing, code, vars)?;
        Ok(Callee {
            func: narrow(i.function)?,
            args,
            place,
            at: i.at,
        })
    }

    #[cycle(expression)]
    pub(crate) fn expressions(
        &self,
        all: &[Term],
        code: &mut List<SStmt>,
        vars: &mut Numbered<SVar>,
    ) -> Result<List<u32>, AllocError>
        ensures { IfOk result (λ xs. PutsAll (low.low_list (scope self.now) (erased.expressions all.now) vars.old.next) code.old code.new vars.old vars.new xs) }
    {
        let mut numbers = List::new(self.alloc);
        for e in all {
            numbers.push(self.argument(e, code, vars)?)?;
        }
        Ok(numbers)
    }

    /// `&` and a shared variable has a temporary of its own as an argument, where the variable is no parameter.
    #[cycle(expression)]
    fn argument(
        &self,
        e: &Term,
        code: &mut List<SStmt>,
        vars: &mut Numbered<SVar>,
    ) -> Result<u32, AllocError>
        ensures { IfOk result (λ x. Puts (argument (scope self.now) (erased.expression e.now) vars.old.next) code.old code.new vars.old vars.new x) }
    {
        let x = self.expression(e, code, vars)?;
        match e {
            Term::Var(at, v) => {
                if self.is_own_shared(*v) {
                    set(temporary(*at, Some(0)), SExpr::Var(x), code, vars)
                } else {
                    Ok(x)
                }
            }
            _ => Ok(x),
        }
    }

    #[cycle(expression)]
    fn placing(
        &self,
        p: &Placing,
        code: &mut List<SStmt>,
        vars: &mut Numbered<SVar>,
    ) -> Result<SPlace, AllocError>
        ensures { IfOk result (λ q. PutsPlacing (operand (scope self.now) (erased.placing p.now) vars.old.next) code.old code.new vars.old vars.new q) }
    {
        match p {
            Placing::Here => Ok(SPlace::Here),
            Placing::OwnerOf(e) => Ok(SPlace::Owner(self.expression(e.get(), code, vars)?)),
            Placing::Home => Ok(SPlace::Home),
            Placing::Node(e) => Ok(SPlace::Node(self.expression(e.get(), code, vars)?)),
            Placing::Anywhere => Ok(SPlace::Anywhere),
        }
    }
}
