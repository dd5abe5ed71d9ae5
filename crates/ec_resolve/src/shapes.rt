//! The shapes of elements, by their numbers.
ghost use Rattle.std.specs.Prelude.{◌≡◌, IfOk};
ghost use Rattle.ec_types.specs.Meaning.Layout as layout;
ghost use Rattle.ec_types.specs.Types as types;
ghost use Rattle.ec_resolve.specs.Seen.{scope};

use crate::scope::Scope;
use ec_syntax::Ty;
use ec_types::{ExprType, ValueBase, ValueType, written_type};
use std::alloc::AllocError;

impl Scope<'_> {
    fn base_shape(&self, base: &ValueBase) -> u32
        ensures { result ≡ layout.base_shape (scope self.now).structs base.now }
    {
        match base {
            ValueBase::Struct(name) => self.structs.shape(name),
            _ => 0,
        }
    }

    /// The shape of an element of this base, behind so many pointers.
    pub(crate) fn shape_of(&self, base: &ValueBase, stars: u64) -> u32
        ensures { result ≡ layout.shape_of (scope self.now).structs (record { base = base.now; stars = stars }) }
    {
        if stars == 0 { self.base_shape(base) } else { 1 }
    }

    /// The shape behind a pointer.
    fn pointer_to(&self, t: &ValueType) -> Option<u32>
        ensures { result ≡ layout.pointer_to (scope self.now).structs t.now }
    {
        if t.is_pointer() {
            Some(self.shape_of(&t.base, t.stars - 1))
        } else {
            None
        }
    }

    /// The shape behind what may be a pointer.
    pub(crate) fn pointer_of(&self, t: &ExprType) -> Option<u32>
        ensures { result ≡ layout.pointer_of (scope self.now).structs t.now }
    {
        match t {
            ExprType::Value(value) => self.pointer_to(value),
            _ => None,
        }
    }

    /// The shape behind a pointer of a written type.
    pub(crate) fn written_pointer(&self, ty: &Ty) -> Result<Option<u32>, AllocError>
        ensures { IfOk result (λ p. p ≡ layout.pointer_to (scope self.now).structs (types.value_type ty.now)) }
    {
        let ty = written_type(self.alloc, ty)?;
        Ok(self.pointer_to(&ty))
    }
}
