//! Instructions on numbers, and what counts as a number or as a pointer.
use crate::execution::{AT, OTHER, OWN, ZERO, leaves, traps};
use ec_base::{BinOp, Block, NoMemory, TrapKind, UnOp, Value};
use ec_code::Instr;
use std::alloc::Global;
use std::process::Abort;

/// An operator, its operands, and what it gives.
type BinaryRow = (BinOp, i64, i64, i64);

const BINARY: &[BinaryRow] = &[
    (BinOp::Add, 5, 7, 12),
    (BinOp::Sub, 5, 7, -2),
    (BinOp::Mul, 5, -7, -35),
    (BinOp::Div, -7, 2, -3),
    (BinOp::Div, i64::MIN, -1, i64::MIN),
    (BinOp::Rem, -7, 2, -1),
    (BinOp::And, 12, 10, 8),
    (BinOp::Or, 12, 10, 14),
    (BinOp::Xor, 12, 10, 6),
    (BinOp::Shl, 3, 66, 12),
    (BinOp::Shr, -9, 1, -5),
    (BinOp::Eq, 5, 7, 0),
    (BinOp::Eq, 7, 7, 1),
    (BinOp::Ne, 5, 7, 1),
    (BinOp::Ne, 7, 7, 0),
    (BinOp::Lt, 5, 7, 1),
    (BinOp::Lt, 7, 7, 0),
    (BinOp::Le, 7, 5, 0),
    (BinOp::Le, 7, 7, 1),
    (BinOp::Gt, 7, 5, 1),
    (BinOp::Gt, 7, 7, 0),
    (BinOp::Ge, 5, 7, 0),
    (BinOp::Ge, 7, 7, 1),
];

/// The instruction that sets cell 4 to what an operator gives of cells 0 and 1.
fn binary(op: BinOp) -> Instr {
    match op {
        BinOp::Add => Instr::Add(4, 0, 1),
        BinOp::Sub => Instr::Sub(4, 0, 1),
        BinOp::Mul => Instr::Mul(4, 0, 1),
        BinOp::Div => Instr::Div(4, 0, 1, AT),
        BinOp::Rem => Instr::Rem(4, 0, 1, AT),
        BinOp::And => Instr::And(4, 0, 1),
        BinOp::Or => Instr::Or(4, 0, 1),
        BinOp::Xor => Instr::Xor(4, 0, 1),
        BinOp::Shl => Instr::Shl(4, 0, 1),
        BinOp::Shr => Instr::Shr(4, 0, 1),
        BinOp::Eq => Instr::Eq(4, 0, 1),
        BinOp::Ne => Instr::Ne(4, 0, 1),
        BinOp::Lt => Instr::Lt(4, 0, 1),
        BinOp::Le => Instr::Le(4, 0, 1),
        BinOp::Gt => Instr::Gt(4, 0, 1),
        BinOp::Ge => Instr::Ge(4, 0, 1),
    }
}

fn gives(rt: &impl Abort, alloc: Global, row: &BinaryRow) -> Result<(), NoMemory> {
    let (op, a, b, number) = row;
    let args = [Value::Int(*a), Value::Int(*b), ZERO, ZERO];
    leaves(rt, alloc, binary(*op), &args, Value::Int(*number))
}

#[test]
fn binary_operators(rt: HostRuntime) -> Result<(), NoMemory> {
    for row in BINARY {
        gives(&rt, rt.alloc(), row)?;
    }
    Ok(())
}

/// Operators that divide, and divisors that count as 0.
const DIVISORS: &[(BinOp, Value)] = &[
    (BinOp::Div, ZERO),
    (BinOp::Div, Value::Null),
    (BinOp::Rem, ZERO),
    (BinOp::Rem, OWN),
];

fn divides_by_zero(rt: &impl Abort, alloc: Global, row: &(BinOp, Value)) -> Result<(), NoMemory> {
    let (op, divisor) = row;
    let args = [Value::Int(1), *divisor, ZERO, ZERO];
    traps(rt, alloc, binary(*op), &args, TrapKind::DivZero, AT)
}

#[test]
fn division_by_zero(rt: HostRuntime) -> Result<(), NoMemory> {
    for row in DIVISORS {
        divides_by_zero(&rt, rt.alloc(), row)?;
    }
    Ok(())
}

/// An operator, what it is applied to, and what it gives.
type UnaryRow = (UnOp, Value, i64);

const UNARY: &[UnaryRow] = &[
    (UnOp::Neg, Value::Int(5), -5),
    (UnOp::Neg, Value::Int(i64::MIN), i64::MIN),
    (UnOp::Inv, Value::Int(5), -6),
    (UnOp::Inv, Value::Null, -1),
    (UnOp::Not, Value::Int(5), 0),
    (UnOp::Not, ZERO, 1),
    (UnOp::Not, OWN, 1),
];

fn unary(op: UnOp) -> Instr {
    match op {
        UnOp::Neg => Instr::Neg(4, 0),
        UnOp::Inv => Instr::Inv(4, 0),
        UnOp::Not => Instr::Not(4, 0),
    }
}

fn turns_to(rt: &impl Abort, alloc: Global, row: &UnaryRow) -> Result<(), NoMemory> {
    let (op, a, number) = row;
    let args = [*a, ZERO, ZERO, ZERO];
    leaves(rt, alloc, unary(*op), &args, Value::Int(*number))
}

#[test]
fn unary_operators(rt: HostRuntime) -> Result<(), NoMemory> {
    for row in UNARY {
        turns_to(&rt, rt.alloc(), row)?;
    }
    Ok(())
}

const MIXED: [Value; 4] = [Value::Int(5), Value::Null, OWN, ZERO];

#[test]
fn cells_that_are_set(rt: HostRuntime) -> Result<(), NoMemory> {
    let alloc = rt.alloc();
    leaves(&rt, alloc, Instr::Const(4, -3), &MIXED, Value::Int(-3))?;
    leaves(&rt, alloc, Instr::Nil(4), &MIXED, Value::Null)?;
    leaves(&rt, alloc, Instr::Copy(4, 0), &MIXED, Value::Int(5))?;
    leaves(&rt, alloc, Instr::Copy(4, 1), &MIXED, Value::Null)?;
    leaves(&rt, alloc, Instr::Copy(4, 2), &MIXED, OWN)?;
    Ok(())
}

#[test]
fn cells_that_are_not_there(rt: HostRuntime) -> Result<(), NoMemory> {
    let alloc = rt.alloc();
    leaves(&rt, alloc, Instr::Const(5, -3), &MIXED, ZERO)?;
    leaves(&rt, alloc, Instr::Copy(4, 5), &MIXED, ZERO)?;
    leaves(&rt, alloc, Instr::Add(4, 0, 5), &MIXED, Value::Int(5))?;
    Ok(())
}

/// Two values, whether they are one pointer, and whether the first is NULL.
const POINTERS: &[(Value, Value, i64, i64)] = &[
    (OWN, OWN, 1, 0),
    (OWN, OTHER, 0, 0),
    (OWN, Value::Ptr(Block { node: 1, number: 1 }), 0, 0),
    (OWN, Value::Null, 0, 0),
    (Value::Null, OWN, 0, 1),
    (Value::Null, Value::Null, 1, 1),
    (Value::Int(5), Value::Null, 1, 1),
    (Value::Int(5), Value::Int(6), 1, 1),
];

fn compares(
    rt: &impl Abort,
    alloc: Global,
    row: &(Value, Value, i64, i64),
) -> Result<(), NoMemory> {
    let (a, b, is_same, is_nil) = row;
    let args = [*a, *b, ZERO, ZERO];
    leaves(rt, alloc, Instr::Same(4, 0, 1), &args, Value::Int(*is_same))?;
    leaves(rt, alloc, Instr::IsNil(4, 0), &args, Value::Int(*is_nil))
}

#[test]
fn pointers_that_are_one(rt: HostRuntime) -> Result<(), NoMemory> {
    for row in POINTERS {
        compares(&rt, rt.alloc(), row)?;
    }
    Ok(())
}

const WITHIN: &[Value] = &[ZERO, Value::Int(1), Value::Int(2), Value::Null, OWN];

const OUTSIDE: &[i64] = &[3, -1, i64::MAX, i64::MIN];

#[test]
fn indices_of_an_array_of_three(rt: HostRuntime) -> Result<(), NoMemory> {
    let alloc = rt.alloc();
    for index in WITHIN {
        leaves(
            &rt,
            alloc,
            Instr::Check(0, 3, AT),
            &[*index, ZERO, ZERO, ZERO],
            ZERO,
        )?;
    }
    for index in OUTSIDE {
        let args = [Value::Int(*index), ZERO, ZERO, ZERO];
        traps(
            &rt,
            alloc,
            Instr::Check(0, 3, AT),
            &args,
            TrapKind::Bounds,
            AT,
        )?;
    }
    Ok(())
}
