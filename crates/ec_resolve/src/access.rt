//! Accesses, and `malloc`s.
ghost use Rattle.std.specs.Prelude.{◌≡◌, IfOk};
ghost use Rattle.ec_types.specs.Meaning.Resolution as resolution;
ghost use Rattle.ec_types.specs.Types as types;
ghost use Rattle.ec_resolve.specs.Erased as erased;
ghost use Rattle.ec_resolve.specs.Operands.{operand};
ghost use Rattle.ec_resolve.specs.Seen.{scope};

use crate::operand::{Form, Operand, valued};
use crate::scope::{Member, Scope};
use crate::term::{Allocation, Place, Term};
use ec_base::{Boxed, Span, Text};
use ec_syntax::Ty;
use ec_types::{ExprType, number, pointee, pointer_to, written_type};
use std::alloc::AllocError;

/// What stands behind a pointer.
fn behind(ty: ExprType) -> ExprType
    ensures { result ≡ resolution.behind ty }
{
    match pointee(ty) {
        None => number(),
        Some(ty) => ty,
    }
}

impl Scope<'_> {
    fn accessed(&self, ty: ExprType, place: Place) -> Result<Operand, AllocError>
        ensures { IfOk result (λ o. operand o ≡ resolution.accessed (scope self.now).structs ty (erased.place place)) }
    {
        let pointer = self.pointer_of(&ty);
        Ok(Operand {
            ty,
            form: Form::Access(pointer, Boxed::new(self.alloc, place)?),
        })
    }

    /// An element of an array field.
    fn item(&self, at: Span, array: Operand, index: Boxed<Term>) -> Result<Operand, AllocError>
        ensures { IfOk result (λ o. operand o ≡ resolution.item (scope self.now).structs at (operand array) (erased.expression index)) }
    {
        let array = array.form.into_place(self.alloc)?;
        self.accessed(number(), Place::Item(at, array, index))
    }

    /// `*e`, and `e[i]` where e is a pointer.
    pub(crate) fn element_at(
        &self,
        at: Span,
        pointer: Operand,
        index: Option<Boxed<Term>>,
    ) -> Result<Operand, AllocError>
        ensures { IfOk result (λ o. operand o ≡ resolution.element_at (scope self.now).structs at (operand pointer) (erased.optional index)) }
    {
        let Operand { ty, form } = pointer;
        let ty = behind(ty);
        let size = self.size_of(&ty);
        let pointer = form.into_value(self.alloc)?;
        self.accessed(ty, Place::Element(at, size, pointer, index))
    }

    /// `e[i]`
    pub(crate) fn indexed(
        &self,
        at: Span,
        e: Operand,
        index: Boxed<Term>,
    ) -> Result<Operand, AllocError>
        ensures { IfOk result (λ o. operand o ≡ resolution.indexed (scope self.now).structs at (operand e) (erased.expression index)) }
    {
        if e.ty.is_array() {
            self.item(at, e, index)
        } else {
            self.element_at(at, e, Some(index))
        }
    }

    /// `e->f`
    pub(crate) fn arrow(
        &self,
        at: Span,
        pointer: Operand,
        name: &Text,
    ) -> Result<Operand, AllocError>
        ensures { IfOk result (λ o. operand o ≡ resolution.arrow (scope self.now).structs at (operand pointer) name.now) }
    {
        let Operand { ty, form } = pointer;
        let member = self.member(1, &ty, name)?;
        let size = self.size_of(&behind(ty));
        let pointer = form.into_value(self.alloc)?;
        let Member { extent, ty } = member;
        self.accessed(ty, Place::Behind(at, size, extent, pointer))
    }

    /// `e.f`
    pub(crate) fn dot(&self, at: Span, element: Operand, name: &Text) -> Result<Operand, AllocError>
        ensures { IfOk result (λ o. operand o ≡ resolution.dot (scope self.now).structs at (operand element) name.now) }
    {
        let Operand { ty, form } = element;
        let member = self.member(0, &ty, name)?;
        let element = form.into_place(self.alloc)?;
        let Member { extent, ty } = member;
        self.accessed(ty, Place::Field(at, extent, element))
    }

    /// A `malloc` of so many elements.
    pub(crate) fn new(
        &self,
        at: Span,
        element: &Ty,
        count: Option<Boxed<Term>>,
    ) -> Result<Operand, AllocError>
        ensures { IfOk result (λ o. operand o ≡ resolution.allocated (scope self.now).structs at (types.value_type element.now) (erased.optional count)) }
    {
        let pointers = self.pointers(element)?;
        let written = written_type(self.alloc, element)?;
        let shape = self.shape_of(&written.base, written.stars);
        let new = Allocation {
            at,
            shape,
            pointers,
            count,
        };
        let ty = ExprType::Value(pointer_to(written));
        valued(self.alloc, ty, Term::New(new))
    }
}
