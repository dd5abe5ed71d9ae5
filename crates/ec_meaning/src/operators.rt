//! Operators on single values, and conditions.
ghost use Rattle.std.specs.Prelude.{◌≡◌, map, IfOk};
ghost use Rattle.ec_types.specs.Meaning.Values as values;
ghost use Rattle.ec_meaning.specs.Reached.{number_of};
ghost use Rattle.ec_meaning.specs.Seen.{Untold, val};

use crate::value::Value;
use ec_base::{List, UnOp};
use std::alloc::{AllocError, Global};

impl Value {
    /// As a number; NULL and pointers are 0.
    pub(crate) fn number(self) -> i64
        ensures of { result ≡ number_of self }
        ensures is { (u : Untold) → values.number (val u self) ≡ result }
    {
        match self {
            Value::Int(number) => number,
            Value::Null | Value::To(_) => 0,
        }
    }

    /// As a condition: a number that isn't 0, or a pointer that isn't NULL.
    pub(crate) fn holds(self) -> bool
        ensures { (u : Untold) → result ≡ values.holds (val u self) }
    {
        match self {
            Value::Int(number) => number != 0,
            Value::Null => false,
            Value::To(_) => true,
        }
    }
}

/// The numbers of values.
pub(crate) fn numbers(alloc: Global, values: &[Value]) -> Result<List<i64>, AllocError>
    ensures { IfOk result (λ ns. ns ≡ map number_of values.now) }
{
    let mut numbers = List::new(alloc);
    for value in values {
        numbers.push(value.number())?;
    }
    Ok(numbers)
}

/// 1 where it holds, and 0 where it doesn't.
pub(crate) fn truth(holds: bool) -> Value
    ensures { (u : Untold) → val u result ≡ values.truth holds }
{
    Value::Int(if holds { 1 } else { 0 })
}

/// What a unary operator gives.
pub(crate) fn unary(op: UnOp, operand: Value) -> Value
    ensures { (u : Untold) → val u result ≡ values.unary_value op (val u operand) }
{
    match op {
        UnOp::Not => truth(!operand.holds()),
        UnOp::Neg | UnOp::Inv => Value::Int(ec_base::unary(op, operand.number())),
    }
}
