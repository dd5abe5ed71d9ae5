//! Temporaries, and the code that sets them.
ghost use Rattle.std.specs.Prelude.{◌≡◌, Some, None, IfOk};
ghost use Rattle.ec_simple.specs.Expressions as low;
ghost use Rattle.ec_simple.specs.declared.form.SExpr.TheVariants as e;
ghost use Rattle.ec_simple.specs.declared.form.SStmt.TheVariants as s;
ghost use Rattle.ec_simple.specs.Puts.{Sets};

use crate::form::{SExpr, SPlaceOf, SStmt, SVar};
use crate::numbered::Numbered;
use ec_base::{List, Span};
use std::alloc::{AllocError, Global};

/// A temporary is never local.
pub(crate) fn temporary(at: Span, pointer: Option<u32>) -> SVar
    ensures { result ≡ low.temporary at pointer }
{
    SVar {
        at,
        local: false,
        pointer: pointer.is_some(),
        shape: pointer.unwrap_or(0),
    }
}

/// One more temporary is set.
pub(crate) fn set(
    v: SVar,
    e: SExpr,
    code: &mut List<SStmt>,
    vars: &mut Numbered<SVar>,
) -> Result<u32, AllocError>
    ensures { IfOk result (λ x. Sets v (λ y. s.Set y e) code.old code.new vars.old vars.new x) }
{
    let x = vars.push(v)?;
    code.push(SStmt::Set(x, e))?;
    Ok(x)
}

/// A number has a temporary of its own.
pub(crate) fn constant(
    at: Span,
    n: i64,
    code: &mut List<SStmt>,
    vars: &mut Numbered<SVar>,
) -> Result<u32, AllocError>
    ensures { IfOk result (λ x. Sets (low.temporary at None) (λ y. s.Set y (e.Number n)) code.old code.new vars.old vars.new x) }
{
    set(temporary(at, None), SExpr::Number(n), code, vars)
}

/// One more temporary is loaded.
pub(crate) fn load(
    pointer: Option<u32>,
    from: SPlaceOf,
    code: &mut List<SStmt>,
    vars: &mut Numbered<SVar>,
) -> Result<u32, AllocError>
    ensures { IfOk result (λ x. Sets (low.temporary from.at pointer) (λ y. s.Load y from) code.old code.new vars.old vars.new x) }
{
    let x = vars.push(temporary(from.at, pointer))?;
    code.push(SStmt::Load(x, from))?;
    Ok(x)
}

/// The code that sets a variable to a number.
pub(crate) fn truth(alloc: Global, x: u32, n: i64) -> Result<List<SStmt>, AllocError>
    ensures { IfOk result (λ l. l ≡ low.truth x n) }
{
    let mut code = List::new(alloc);
    code.push(SStmt::Set(x, SExpr::Number(n)))?;
    Ok(code)
}

/// A block of so many elements is made.
pub(crate) fn created(
    at: Span,
    shape: u32,
    count: u32,
    code: &mut List<SStmt>,
    vars: &mut Numbered<SVar>,
) -> Result<u32, AllocError>
    ensures { IfOk result (λ x. Sets (low.temporary at (Some shape)) (λ y. s.New y shape count at) code.old code.new vars.old vars.new x) }
{
    let x = vars.push(temporary(at, Some(shape)))?;
    code.push(SStmt::New(x, shape, count, at))?;
    Ok(x)
}

/// What a shared variable holds is read.
pub(crate) fn read(
    at: Span,
    from: u32,
    code: &mut List<SStmt>,
    vars: &mut Numbered<SVar>,
) -> Result<u32, AllocError>
    ensures { IfOk result (λ x. Sets (low.temporary at None) (λ y. s.Read from y at) code.old code.new vars.old vars.new x) }
{
    let x = vars.push(temporary(at, None))?;
    code.push(SStmt::Read(from, x, at))?;
    Ok(x)
}
