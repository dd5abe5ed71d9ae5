//! Which declared types are allowed.
ghost use Rattle.std.specs.Prelude.{◌≡◌};
ghost use Rattle.ec_types.specs.Declarations as declarations;
ghost use Rattle.ec_types.specs.Types as types;

use ec_syntax::{Base, Decl, Mode, Ty};

/// Whether the written type is `void`.
pub fn is_written_void(ty: &Ty) -> bool
    ensures { result ≡ types.is_void (types.value_type ty.now) }
{
    match ty.base {
        Base::Void => ty.stars == 0,
        _ => false,
    }
}

pub(crate) fn is_written_int(ty: &Ty) -> bool
    ensures { result ≡ types.is_int (types.value_type ty.now) }
{
    match ty.base {
        Base::Int => ty.stars == 0,
        _ => false,
    }
}

/// Whether the written type is a pointer.
pub fn is_written_pointer(ty: &Ty) -> bool
    ensures { result ≡ types.is_pointer (types.value_type ty.now) }
{
    match ty.base {
        Base::Void => false,
        _ => 0 < ty.stars,
    }
}

pub(crate) fn is_variable(d: &Decl) -> bool
    ensures { result ≡ declarations.is_variable d.now }
{
    match d.mode {
        Mode::Plain => is_written_int(&d.ty) || is_written_pointer(&d.ty),
        Mode::Local => is_written_pointer(&d.ty),
        Mode::Shared => is_written_int(&d.ty),
    }
}

/// Whether this is `int *`.
fn is_pointer_to_int(ty: &Ty) -> bool
    ensures { result ≡ types.same_type (types.value_type ty.now) (types.pointer_to types.int) }
{
    match ty.base {
        Base::Int => ty.stars == 1,
        _ => false,
    }
}

pub(crate) fn is_parameter(d: &Decl) -> bool
    ensures { result ≡ declarations.is_parameter d.now }
{
    match d.mode {
        Mode::Plain => is_written_int(&d.ty) || is_written_pointer(&d.ty),
        Mode::Local => is_written_pointer(&d.ty),
        Mode::Shared => is_pointer_to_int(&d.ty),
    }
}
