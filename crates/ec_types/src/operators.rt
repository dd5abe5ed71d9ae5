//! Which types go together, and what comes of them.
ghost use Rattle.std.specs.Prelude.{◌≡◌, ◌<◌, ◌^◌, option_copied, IfOk};
ghost use Rattle.std.specs.Bool.{then_some};
ghost use Rattle.ec_types.specs.declared.value_type.ExprType.TheVariants.{Value};
ghost use Rattle.ec_types.specs.declared.value_type.ValueType.{ValueType};
ghost use Rattle.ec_types.specs.Operators as operators;
ghost use Rattle.ec_types.specs.Types as types;

use crate::value_type::{ExprType, ValueBase, ValueType, is_same_type, number, written_type};
use ec_base::{BinOp, Text, UnOp};
use ec_syntax::{Decl, Field, Mode, Ty};
use std::alloc::{AllocError, Global};

/// Two ints, two pointers to one type, or a pointer and `NULL`.
fn is_comparable(a: &ExprType, b: &ExprType) -> bool
    ensures { result ≡ operators.comparable a.now b.now }
{
    match a {
        ExprType::Value(t) => match b {
            ExprType::Value(u) => (t.is_int() || t.is_pointer()) && is_same_type(t, u),
            ExprType::Null => t.is_pointer(),
            _ => false,
        },
        ExprType::Null => b.points(),
        _ => false,
    }
}

fn operands_fit(operator: BinOp, a: &ExprType, b: &ExprType) -> bool
    ensures { result ≡ operators.operands_fit operator a.now b.now }
{
    match operator {
        BinOp::Eq => is_comparable(a, b),
        BinOp::Ne => is_comparable(a, b),
        _ => a.is_number() && b.is_number(),
    }
}

fn number_where(test: bool) -> Option<ExprType>
    ensures { result ≡ then_some test types.number }
{
    if test { Some(number()) } else { None }
}

pub(crate) fn binary_type(operator: BinOp, a: &ExprType, b: &ExprType) -> Option<ExprType>
    ensures { result ≡ operators.binary_type operator a.now b.now }
{
    number_where(operands_fit(operator, a, b))
}

pub(crate) fn unary_type(operator: UnOp, a: &ExprType) -> Option<ExprType>
    ensures { result ≡ operators.unary_type operator a.now }
{
    match operator {
        UnOp::Not => number_where(a.is_scalar()),
        _ => number_where(a.is_number()),
    }
}

/// Of `&&` and `||`.
pub(crate) fn logic_type(a: &ExprType, b: &ExprType) -> Option<ExprType>
    ensures { result ≡ operators.logic_type a.now b.now }
{
    number_where(a.is_scalar() && b.is_scalar())
}

/// Of `*e`.
pub fn pointee(t: ExprType) -> Option<ExprType>
    ensures { result ≡ operators.pointee t }
{
    match t {
        ExprType::Value(value) => {
            if value.is_pointer() {
                Some(ExprType::Value(ValueType {
                    base: value.base,
                    stars: value.stars - 1,
                }))
            } else {
                None
            }
        }
        _ => None,
    }
}

/// Of `e[i]`.
pub(crate) fn element_type(e: ExprType, i: &ExprType) -> Option<ExprType>
    ensures { result ≡ operators.element_type e i.now }
{
    if i.is_number() {
        if e.is_array() {
            Some(number())
        } else {
            pointee(e)
        }
    } else {
        None
    }
}

/// The struct behind so many pointers.
pub fn struct_behind(stars: u64, t: &ExprType) -> Option<&Text>
    ensures { option_copied result ≡ operators.struct_behind stars t.now }
{
    match t {
        ExprType::Value(value) => match &value.base {
            ValueBase::Struct(name) => {
                if value.stars == stars {
                    Some(name)
                } else {
                    None
                }
            }
            _ => None,
        },
        _ => None,
    }
}

pub fn field_type(alloc: Global, f: &Field) -> Result<ExprType, AllocError>
    ensures { IfOk result (λ t. t ≡ operators.field_type f.now) }
{
    match f.array {
        Some(_) => Ok(ExprType::Array),
        None => Ok(ExprType::Value(written_type(alloc, &f.ty)?)),
    }
}

/// A variable or parameter as an expression.
pub fn variable_type(alloc: Global, d: &Decl) -> Result<ExprType, AllocError>
    ensures { IfOk result (λ t. t ≡ operators.variable_type d.now) }
{
    match d.mode {
        Mode::Shared => {
            if d.ty.stars == 0 {
                Ok(ExprType::SharedName)
            } else {
                Ok(ExprType::Shared)
            }
        }
        _ => Ok(ExprType::Value(written_type(alloc, &d.ty)?)),
    }
}

/// Whether a value of the second type may be put where a value of the first stands.
pub(crate) fn is_value_for(t: &ValueType, b: &ExprType) -> bool
    ensures { result ≡ operators.assignable (Value t.now) b.now }
{
    match b {
        ExprType::Value(u) => t.is_element() && is_same_type(t, u),
        ExprType::Null => t.is_pointer(),
        _ => false,
    }
}

/// Whether what is of the second type may be put where something of the first stands.
pub(crate) fn is_assignable(a: &ExprType, b: &ExprType) -> bool
    ensures { result ≡ operators.assignable a.now b.now }
{
    match a {
        ExprType::Value(t) => is_value_for(t, b),
        _ => false,
    }
}

/// Whether an argument of this type fits the parameter.
pub(crate) fn passes(alloc: Global, d: &Decl, t: &ExprType) -> Result<bool, AllocError>
    ensures { IfOk result (λ b. b ≡ operators.passes d.now t.now) }
{
    match d.mode {
        Mode::Shared => Ok(t.is_shared()),
        _ => {
            let target = ExprType::Value(written_type(alloc, &d.ty)?);
            Ok(is_assignable(&target, t))
        }
    }
}

/// A pointer to elements of this type.
pub fn pointer_to(element: ValueType) -> ValueType
    requires { element.stars < 2 ^ 32 }
    ensures { result ≡ types.pointer_to element }
{
    ValueType {
        base: element.base,
        stars: element.stars + 1,
    }
}

fn cast_fits(alloc: Global, to: &Option<Ty>, block: &ValueType) -> Result<bool, AllocError>
    ensures { IfOk result (λ b. (element : ValueType) → block.now ≡ types.pointer_to element → b ≡ operators.cast_fits to.now element) }
{
    match to {
        None => Ok(true),
        Some(ty) => Ok(is_same_type(&written_type(alloc, ty)?, block)),
    }
}

/// Of `malloc`, whose count is an int where that is told.
pub(crate) fn allocated(
    alloc: Global,
    to: &Option<Ty>,
    element: &Ty,
    counts: bool,
) -> Result<Option<ExprType>, AllocError>
    ensures { IfOk result (λ t. t ≡ operators.allocated to.now (types.value_type element.now) counts) }
{
    let element = written_type(alloc, element)?;
    let is_element = element.is_element();
    let block = pointer_to(element);
    if counts && is_element && cast_fits(alloc, to, &block)? {
        Ok(Some(ExprType::Value(block)))
    } else {
        Ok(None)
    }
}
