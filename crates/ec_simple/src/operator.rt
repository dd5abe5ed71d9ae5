//! Operators. Pointers are compared by their blocks.
ghost use Rattle.std.specs.Prelude.{◌≡◌, true, IfOk};
ghost use Rattle.ec_simple.specs.Expressions as low;
ghost use Rattle.ec_simple.specs.Puts.{Puts, value};

use crate::form::{SExpr, SStmt, SVar};
use crate::numbered::Numbered;
use crate::temporary::{set, temporary};
use ec_base::{BinOp, List, Span, UnOp};
use std::alloc::AllocError;

/// An operator on a variable, which may be a pointer.
pub(crate) fn unary(op: UnOp, pointer: bool, x: u32) -> SExpr
    ensures { result ≡ low.unary op pointer x }
{
    match op {
        UnOp::Not => {
            if pointer {
                SExpr::IsNull(x)
            } else {
                SExpr::Unary(op, x)
            }
        }
        UnOp::Neg | UnOp::Inv => SExpr::Unary(op, x),
    }
}

fn compared(
    at: Span,
    op: BinOp,
    x: u32,
    y: u32,
    code: &mut List<SStmt>,
    vars: &mut Numbered<SVar>,
) -> Result<u32, AllocError>
    ensures { IfOk result (λ z. Puts (low.compared vars.old.next at op (value x) (value y)) code.old code.new vars.old vars.new z) }
{
    match op {
        BinOp::Eq => set(temporary(at, None), SExpr::SameBlock(x, y), code, vars),
        BinOp::Ne => {
            let same = set(temporary(at, None), SExpr::SameBlock(x, y), code, vars)?;
            set(
                temporary(at, None),
                SExpr::Unary(UnOp::Not, same),
                code,
                vars,
            )
        }
        _ => set(temporary(at, None), SExpr::Binary(op, x, y, at), code, vars),
    }
}

/// An operator on two variables, which may be pointers.
pub(crate) fn combined(
    pointers: bool,
    at: Span,
    op: BinOp,
    x: u32,
    y: u32,
    code: &mut List<SStmt>,
    vars: &mut Numbered<SVar>,
) -> Result<u32, AllocError>
    ensures { IfOk result (λ z. Puts (low.binary pointers vars.old.next at op (value x) (value y)) code.old code.new vars.old vars.new z) }
{
    if pointers {
        compared(at, op, x, y, code, vars)
    } else {
        set(temporary(at, None), SExpr::Binary(op, x, y, at), code, vars)
    }
}
