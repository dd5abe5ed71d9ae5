//! The headers of `forall`s.
ghost use Rattle.std.specs.Prelude.{◌≡◌, ◌++◌, IfOk};
ghost use Rattle.ec_resolve.specs.Erased as erased;
ghost use Rattle.ec_simple.specs.Headers as headers;
ghost use Rattle.ec_simple.specs.Puts.{more};
ghost use Rattle.ec_simple.specs.Seen.{scope};
ghost use Rattle.ec_simple.specs.Statements as low;
ghost use Rattle.ec_simple.specs.Uses as uses;

use crate::form::{SCall, SForall, SVar, VarUse};
use crate::numbered::Numbered;
use crate::scope::Scope;
use crate::uses::{assignment_reads, assignment_writes, reads};
use ec_base::{BinOp, Boxed, List, Span};
use ec_resolve::{Assignment, ForallHeader, Term};
use std::alloc::AllocError;

fn is_variable(e: &Term, x: usize) -> bool
    ensures { result ≡ headers.is_variable x (erased.expression e.now) }
{
    match e {
        Term::Var(_, y) => *y == x,
        _ => false,
    }
}

fn is_one(e: &Term) -> bool
    ensures { result ≡ headers.is_one (erased.expression e.now) }
{
    match e {
        Term::Number(_, n) => *n == 1,
        _ => false,
    }
}

/// Whether a test is that the variable is less than something.
fn is_below(e: &Term, x: usize) -> bool
    ensures { result ≡ headers.is_below x (erased.expression e.now) }
{
    match e {
        Term::Binary(_, BinOp::Lt, a, _) => is_variable(a.get(), x),
        _ => false,
    }
}

/// Whether a value is one more than the variable's.
fn is_next(e: &Term, x: usize) -> bool
    ensures { result ≡ headers.is_next x (erased.expression e.now) }
{
    match e {
        Term::Binary(_, BinOp::Add, a, b) => is_variable(a.get(), x) && is_one(b.get()),
        _ => false,
    }
}

/// Whether an assignment raises the variable by 1.
fn is_raised(a: &Assignment, x: usize) -> bool
    ensures { result ≡ headers.is_raised x (erased.assignment a.now) }
{
    match a {
        Assignment::SetVar(_, y, e) => *y == x && is_next(e, x),
        _ => false,
    }
}

/// `i = a; i < b; i = i + 1`
fn is_counted(first: &Assignment, test: &Term, last: &Assignment) -> bool
    ensures { result ≡ low.is_counted (erased.assignment first.now) (erased.expression test.now) (erased.assignment last.now) }
{
    match first {
        Assignment::SetVar(_, x, _) => is_below(test, *x) && is_raised(last, *x),
        _ => false,
    }
}

fn loop_variable(a: &Assignment) -> usize
    ensures { result ≡ low.loop_variable (erased.assignment a.now) }
{
    match a {
        Assignment::SetVar(_, x, _) => *x,
        _ => 0,
    }
}

impl Scope<'_, '_> {
    fn header_reads(&self, header: &ForallHeader) -> Result<List<VarUse>, AllocError>
        ensures { IfOk result (λ l. l ≡ low.uses (scope self.now)
            (uses.assignment_reads (erased.assignment header.now.first) ++ uses.reads (erased.expression header.now.test) ++ uses.assignment_reads (erased.assignment header.now.last))) }
    {
        let mut all = List::new(self.alloc);
        assignment_reads(header.first.get(), &mut all)?;
        reads(header.test.get(), &mut all)?;
        assignment_reads(header.last.get(), &mut all)?;
        self.uses(all.as_slice())
    }

    fn header_writes(&self, header: &ForallHeader) -> Result<List<VarUse>, AllocError>
        ensures { IfOk result (λ l. l ≡ low.uses (scope self.now)
            (uses.assignment_writes (erased.assignment header.now.first) ++ uses.assignment_writes (erased.assignment header.now.last))) }
    {
        let mut all = List::new(self.alloc);
        assignment_writes(header.first.get(), &mut all)?;
        assignment_writes(header.last.get(), &mut all)?;
        self.uses(all.as_slice())
    }

    /// A `forall` with this call of its body.
    pub(crate) fn forall(
        &self,
        at: Span,
        header: &ForallHeader,
        body: Boxed<SCall>,
        vars: &mut Numbered<SVar>,
    ) -> Result<Boxed<SForall>, AllocError>
        ensures { IfOk result (λ f. headers.PutsForall (scope self.now) at (erased.assignment header.now.first) (erased.expression header.now.test) (erased.assignment header.now.last) body f vars.old vars.new) }
    {
        let first = header.first.get();
        let last = header.last.get();
        let mut init = List::new(self.alloc);
        self.assignment(first, &mut init, vars)?;
        let mut before = List::new(self.alloc);
        let test = self.expression(header.test.get(), &mut before, vars)?;
        let mut step = List::new(self.alloc);
        self.assignment(last, &mut step, vars)?;
        let reads = self.header_reads(header)?;
        let writes = self.header_writes(header)?;
        Boxed::new(
            self.alloc,
            SForall {
                at,
                var: self.place(loop_variable(first))?,
                init,
                before,
                test,
                step,
                body,
                counted: is_counted(first, header.test.get(), last),
                reads,
                writes,
            },
        )
    }
}
