//! Operators on numbers at their edges.
use ec_base::{BinOp, UnOp, binary, unary};
use std::process::Abort;

/// An operator, its operands, and what it gives.
type Row = (BinOp, i64, i64, Option<i64>);

const BINARY: &[Row] = &[
    (BinOp::Add, i64::MAX, 1, Some(i64::MIN)),
    (BinOp::Sub, i64::MIN, 1, Some(i64::MAX)),
    (BinOp::Mul, i64::MIN, -1, Some(i64::MIN)),
    (BinOp::Div, -7, 2, Some(-3)),
    (BinOp::Div, i64::MIN, -1, Some(i64::MIN)),
    (BinOp::Div, 1, 0, None),
    (BinOp::Rem, -7, 2, Some(-1)),
    (BinOp::Rem, i64::MIN, -1, Some(0)),
    (BinOp::Rem, 1, 0, None),
    (BinOp::And, -2, 7, Some(6)),
    (BinOp::Or, 1, 6, Some(7)),
    (BinOp::Xor, -1, 1, Some(-2)),
    (BinOp::Shl, 1, 64, Some(1)),
    (BinOp::Shl, 3, 63, Some(i64::MIN)),
    (BinOp::Shl, 1, -1, Some(i64::MIN)),
    (BinOp::Shr, -8, 1, Some(-4)),
    (BinOp::Shr, -1, 127, Some(-1)),
    (BinOp::Eq, 2, 2, Some(1)),
    (BinOp::Ne, 2, 2, Some(0)),
    (BinOp::Lt, -1, 0, Some(1)),
    (BinOp::Le, 0, 0, Some(1)),
    (BinOp::Gt, 0, 0, Some(0)),
    (BinOp::Ge, i64::MAX, i64::MIN, Some(1)),
];

const UNARY: &[(UnOp, i64, i64)] = &[
    (UnOp::Neg, i64::MIN, i64::MIN),
    (UnOp::Neg, 3, -3),
    (UnOp::Inv, 0, -1),
    (UnOp::Not, 0, 1),
    (UnOp::Not, -5, 0),
];

fn gives(rt: &impl Abort, row: &Row) {
    let (operator, a, b, expected) = row;
    assert_eq!(rt; binary(*operator, *a, *b), *expected);
}

#[test]
fn operators_keep_to_64_bits(rt: HostRuntime) {
    for row in BINARY {
        gives(&rt, row);
    }
    for (operator, a, expected) in UNARY {
        assert_eq!(rt; unary(*operator, *a), *expected);
    }
}
