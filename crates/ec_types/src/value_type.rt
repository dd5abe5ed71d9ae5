//! Types without the places of their names.
ghost use Rattle.std.specs.Prelude.{◌≡◌, ◌<◌, ◌^◌, IfOk};
ghost use Rattle.ec_types.specs.Types as types;

use ec_base::Text;
use ec_syntax::{Base, Ty};
use std::alloc::{AllocError, Global};

/// What the type of a value begins with.
#[derive(Debug, Drop, PartialEq, Eq)]
pub enum ValueBase {
    Void,
    Int,
    /// The struct of this name.
    Struct(Text),
}

/// The type of a value: `stars` pointers to its base. An element type is one whose base isn't `void`.
#[derive(Debug, Drop, PartialEq, Eq)]
pub struct ValueType {
    pub base: ValueBase,
    pub stars: u64,
}

/// What an expression is.
#[derive(Debug, Drop, PartialEq, Eq)]
pub enum ExprType {
    /// An int, a pointer, a whole struct, or nothing at all, as a call of a `void` function.
    Value(ValueType),
    /// `NULL`, a pointer to no type.
    Null,
    /// An array field of a struct, without its index.
    Array,
    /// What may be passed on as shared: `&` and a shared variable, or a shared parameter.
    Shared,
    /// A shared variable without its `&`.
    SharedName,
}

/// `int`
pub(crate) fn int() -> ValueType
    ensures { result ≡ types.int }
{
    ValueType {
        base: ValueBase::Int,
        stars: 0,
    }
}

/// What an int is as an expression.
pub fn number() -> ExprType
    ensures { result ≡ types.number }
{
    ExprType::Value(int())
}

fn is_same_base(a: &ValueBase, b: &ValueBase) -> bool
    ensures { result ≡ types.same_base a.now b.now }
{
    match a {
        ValueBase::Void => match b {
            ValueBase::Void => true,
            _ => false,
        },
        ValueBase::Int => match b {
            ValueBase::Int => true,
            _ => false,
        },
        ValueBase::Struct(name) => match b {
            ValueBase::Struct(other) => name == other,
            _ => false,
        },
    }
}

/// Whether both are one type.
pub(crate) fn is_same_type(a: &ValueType, b: &ValueType) -> bool
    ensures { result ≡ types.same_type a.now b.now }
{
    is_same_base(&a.base, &b.base) && a.stars == b.stars
}

impl ValueType {
    /// Whether this is an element type: `int`, a struct, or a pointer to an element type.
    pub(crate) fn is_element(&self) -> bool
        ensures { result ≡ types.is_element self.now }
    {
        match self.base {
            ValueBase::Void => false,
            _ => true,
        }
    }

    pub(crate) fn is_int(&self) -> bool
        ensures { result ≡ types.is_int self.now }
    {
        match self.base {
            ValueBase::Int => self.stars == 0,
            _ => false,
        }
    }

    pub(crate) fn is_void(&self) -> bool
        ensures { result ≡ types.is_void self.now }
    {
        match self.base {
            ValueBase::Void => self.stars == 0,
            _ => false,
        }
    }

    /// Whether this is a pointer to an element type.
    pub fn is_pointer(&self) -> bool
        ensures { result ≡ types.is_pointer self.now }
    {
        self.is_element() && 0 < self.stars
    }
}

impl ExprType {
    pub(crate) fn is_number(&self) -> bool
        ensures { result ≡ types.is_number self.now }
    {
        match self {
            ExprType::Value(value) => value.is_int(),
            _ => false,
        }
    }

    /// Whether this is the value of a pointer.
    pub(crate) fn is_pointer(&self) -> bool
        ensures { result ≡ types.of_value types.is_pointer self.now }
    {
        match self {
            ExprType::Value(value) => value.is_pointer(),
            _ => false,
        }
    }

    pub(crate) fn is_null(&self) -> bool
        ensures { result ≡ types.is_null self.now }
    {
        match self {
            ExprType::Null => true,
            _ => false,
        }
    }

    pub fn is_array(&self) -> bool
        ensures { result ≡ types.is_array self.now }
    {
        match self {
            ExprType::Array => true,
            _ => false,
        }
    }

    pub(crate) fn is_shared(&self) -> bool
        ensures { result ≡ types.is_shared self.now }
    {
        match self {
            ExprType::Shared => true,
            _ => false,
        }
    }

    /// Whether this is a pointer or `NULL`.
    pub(crate) fn points(&self) -> bool
        ensures { result ≡ types.points self.now }
    {
        self.is_pointer() || self.is_null()
    }

    /// Whether this may be a condition.
    pub(crate) fn is_scalar(&self) -> bool
        ensures { result ≡ types.is_scalar self.now }
    {
        self.is_number() || self.points()
    }
}

/// The base of a written type.
fn base_of(alloc: Global, base: &Base) -> Result<ValueBase, AllocError>
    ensures { IfOk result (λ b. b ≡ types.base_of base.now) }
{
    match base {
        Base::Void => Ok(ValueBase::Void),
        Base::Int => Ok(ValueBase::Int),
        Base::Struct(name) => Ok(ValueBase::Struct(name.text.copy(alloc)?)),
    }
}

/// A written type.
pub fn written_type(alloc: Global, ty: &Ty) -> Result<ValueType, AllocError>
    ensures typed { IfOk result (λ t. t ≡ types.value_type ty.now) }
    ensures few { IfOk result (λ t. t.stars < 2 ^ 32) }
{
    Ok(ValueType {
        base: base_of(alloc, &ty.base)?,
        stars: ty.stars as u64,
    })
}
