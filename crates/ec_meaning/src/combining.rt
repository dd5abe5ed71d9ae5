//! Binary operators.
ghost use Rattle.std.specs.Prelude.{◌≡◌, option_map};
ghost use Rattle.ec_types.specs.Meaning.Values as values;
ghost use Rattle.ec_types.specs.Meaning.Memory as memory;
ghost use Rattle.ec_meaning.specs.Seen.{Untold, val};
ghost use Rattle.ec_meaning.specs.Kept.{Apart};

use crate::operators::truth;
use crate::value::Value;
use ec_base::{BinOp, binary};

/// Pointers are the same where they name the same block.
fn is_same(a: Value, b: Value) -> bool
    ensures { (u : Untold) → Apart u → result ≡ values.same_value (val u a) (val u b) }
{
    match (a, b) {
        (Value::Int(m), Value::Int(n)) => m == n,
        (Value::Null, Value::Null) => true,
        (Value::To(j), Value::To(k)) => j == k,
        _ => false,
    }
}

/// The sum of two values as numbers.
pub(crate) fn sum(a: Value, b: Value) -> Value
    ensures { (u : Untold) → val u result ≡ memory.sum (val u a) (val u b) }
{
    Value::Int(a.number().wrapping_add(b.number()))
}

/// What a binary operator makes of two values, none where it divides by 0.
pub(crate) fn combined(op: BinOp, a: Value, b: Value) -> Option<Value>
    ensures { (u : Untold) → Apart u → option_map (val u) result ≡ values.binary_value op (val u a) (val u b) }
{
    match op {
        BinOp::Eq => Some(truth(is_same(a, b))),
        BinOp::Ne => Some(truth(!is_same(a, b))),
        _ => match binary(op, a.number(), b.number()) {
            Some(n) => Some(Value::Int(n)),
            None => None,
        },
    }
}
