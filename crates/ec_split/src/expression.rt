//! The instructions of expressions.
ghost use Rattle.std.specs.Prelude.{◌≡◌, ◌+◌, ◌++◌, ◌<◌, ◌^◌, OnOk};
ghost use Rattle.ec_small.specs.Sound.{operators};
ghost use Rattle.ec_split.specs.Owes.{operation};
ghost use Rattle.ec_split.specs.Cut.{instrs};

use ec_base::{List, NoMemory};
use ec_core::Instr;
use ec_small::{Expr, Operator};

fn operation(op: Operator, d: u32, a: u32, b: u32) -> Instr
    ensures { result ≡ operation op d a b }
{
    match op {
        Operator::Add => Instr::Add(d, a, b),
        Operator::Sub => Instr::Sub(d, a, b),
        Operator::Mul => Instr::Mul(d, a, b),
    }
}

/// Appends what computes an expression into cell `d`. Its temporaries are the cells from `base` on.
pub fn expression(out: &mut List<Instr>, d: u32, base: u32, e: &Expr) -> Result<(), NoMemory>
    requires { base + operators e.now < 2 ^ 32 }
    ensures { OnOk result (out.new ≡ out.old ++ instrs d base e.now) }
{
    match e {
        Expr::Number(n) => out.push(Instr::Const(d, *n))?,
        Expr::Var(k) => out.push(Instr::Copy(d, *k))?,
        Expr::Binary(op, a, b) => {
            expression(out, base, base, a.get())?;
            expression(out, base + 1, base + 1, b.get())?;
            out.push(operation(*op, d, base, base + 1))?;
        }
    }
    Ok(())
}
