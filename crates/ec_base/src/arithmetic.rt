//! Operators on numbers of 64 bits, as `specs/Arithmetic.antt` says.
ghost use Rattle.std.specs.Prelude.{◌≡◌, ◌<◌};
ghost use Rattle.ec_base.specs.Arithmetic as arithmetic;
ghost use Rattle.ec_base.specs.declared.operator.BinOp.TheVariants as operator;

use crate::operator::{BinOp, UnOp};

fn one_if(holds: bool) -> i64
    ensures { result ≡ arithmetic.one_if holds }
{
    if holds { 1 } else { 0 }
}

fn is_zero(a: i64) -> bool
    ensures { result ≡ arithmetic.is_zero a }
{
    a == 0
}

fn is_same(a: i64, b: i64) -> bool
    ensures { result ≡ arithmetic.same_number a b }
{
    a == b
}

/// How far numbers are shifted by this one.
fn shift(by: i64) -> u32
    ensures value { result ≡ arithmetic.shift by }
    ensures few { result < 64 }
{
    by.rem_euclid(64) as u32
}

/// The quotient, which truncates toward zero.
fn quotient(a: i64, b: i64) -> Option<i64>
    ensures { result ≡ arithmetic.binary operator.Div a b }
{
    if is_zero(b) {
        None
    } else {
        Some(a.wrapping_div(b))
    }
}

/// The remainder, with the sign of the left side.
fn remainder(a: i64, b: i64) -> Option<i64>
    ensures { result ≡ arithmetic.binary operator.Rem a b }
{
    if is_zero(b) {
        None
    } else {
        Some(a.wrapping_rem(b))
    }
}

/// What a binary operator gives, `None` exactly where it divides by 0.
pub fn binary(op: BinOp, a: i64, b: i64) -> Option<i64>
    ensures { result ≡ arithmetic.binary op a b }
{
    match op {
        BinOp::Add => Some(a.wrapping_add(b)),
        BinOp::Sub => Some(a.wrapping_sub(b)),
        BinOp::Mul => Some(a.wrapping_mul(b)),
        BinOp::Div => quotient(a, b),
        BinOp::Rem => remainder(a, b),
        BinOp::And => Some(a & b),
        BinOp::Or => Some(a | b),
        BinOp::Xor => Some(a ^ b),
        BinOp::Shl => Some(a << shift(b)),
        BinOp::Shr => Some(a >> shift(b)),
        BinOp::Eq => Some(one_if(is_same(a, b))),
        BinOp::Ne => Some(one_if(!is_same(a, b))),
        BinOp::Lt => Some(one_if(a < b)),
        BinOp::Le => Some(one_if(a <= b)),
        BinOp::Gt => Some(one_if(b < a)),
        BinOp::Ge => Some(one_if(b <= a)),
    }
}

/// What a unary operator gives.
pub fn unary(op: UnOp, a: i64) -> i64
    ensures { result ≡ arithmetic.unary op a }
{
    match op {
        UnOp::Neg => a.wrapping_neg(),
        UnOp::Inv => !a,
        UnOp::Not => one_if(is_zero(a)),
    }
}
