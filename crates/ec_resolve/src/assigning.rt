//! Assignments and declarations.
ghost use Rattle.std.specs.Prelude.{◌≡◌, map, option_map, IfOk};
ghost use Rattle.ec_types.specs.Meaning.Resolution as resolution;
ghost use Rattle.ec_types.specs.Meaning.Tree as tree;
ghost use Rattle.ec_resolve.specs.Erased as erased;
ghost use Rattle.ec_resolve.specs.Operands.{operand, form};
ghost use Rattle.ec_resolve.specs.Seen.{scope};

use crate::action::{Assignment, Declared};
use crate::operand::{Form, Operand};
use crate::scope::Scope;
use ec_base::{Boxed, List, Span};
use ec_syntax::{Assign, Decl, Mode};
use ec_types::{ExprType, is_written_pointer, struct_behind};
use std::alloc::{AllocError, Global};

/// Whether this is a whole element, as it stands behind a pointer.
fn is_struct(ty: &ExprType) -> bool
    ensures { result ≡ resolution.is_struct ty.now }
{
    struct_behind(0, ty).is_some()
}

fn set_variable(
    alloc: Global,
    at: Span,
    x: usize,
    source: Form,
) -> Result<Boxed<Assignment>, AllocError>
    ensures { IfOk result (λ a. erased.assignment a ≡ tree.SetVar at x (resolution.value_of (form source))) }
{
    let value = source.into_value(alloc)?;
    Boxed::new(alloc, Assignment::SetVar(at, x, value.into_inner()))
}

fn copied(alloc: Global, target: Form, source: Form) -> Result<Boxed<Assignment>, AllocError>
    ensures { IfOk result (λ a. erased.assignment a ≡ tree.Copy (resolution.place_of (form target)) (resolution.place_of (form source))) }
{
    let target = target.into_place(alloc)?;
    let source = source.into_place(alloc)?;
    Boxed::new(
        alloc,
        Assignment::Copy(target.into_inner(), source.into_inner()),
    )
}

fn stored(alloc: Global, target: Form, source: Form) -> Result<Boxed<Assignment>, AllocError>
    ensures { IfOk result (λ a. erased.assignment a ≡ tree.Store (resolution.place_of (form target)) (resolution.value_of (form source))) }
{
    let target = target.into_place(alloc)?;
    let value = source.into_value(alloc)?;
    Boxed::new(
        alloc,
        Assignment::Store(target.into_inner(), value.into_inner()),
    )
}

/// A variable, a struct, or another place is set.
fn assigned(alloc: Global, left: Operand, right: Operand) -> Result<Boxed<Assignment>, AllocError>
    ensures { IfOk result (λ a. erased.assignment a ≡ resolution.assigned (operand left) (operand right)) }
{
    match left.form.variable() {
        Some((at, x)) => set_variable(alloc, at, x, right.form),
        None => {
            if is_struct(&left.ty) {
                copied(alloc, left.form, right.form)
            } else {
                stored(alloc, left.form, right.form)
            }
        }
    }
}

impl Scope<'_> {
    pub(crate) fn assignment(&self, a: &Assign) -> Result<Boxed<Assignment>, AllocError>
        ensures { IfOk result (λ x. erased.assignment x ≡ resolution.assignment (scope self.now) a.now) }
    {
        let left = self.expression(&a.left)?;
        assigned(self.alloc, left, self.expression(&a.right)?)
    }

    pub(crate) fn optional_assignment(
        &self,
        a: &Option<Boxed<Assign>>,
    ) -> Result<Option<Boxed<Assignment>>, AllocError>
        ensures { IfOk result (λ x. option_map erased.assignment x ≡ option_map (resolution.assignment (scope self.now)) a.now) }
    {
        match a {
            None => Ok(None),
            Some(a) => Ok(Some(self.assignment(a.get())?)),
        }
    }

    fn declaration(&self, d: &Decl) -> Result<Declared, AllocError>
        ensures { IfOk result (λ x. erased.declaration x ≡ resolution.declaration (scope self.now) d.now) }
    {
        let x = self.variable_number(&d.name.text);
        match d.mode {
            Mode::Shared => Ok(Declared::Shared(x)),
            _ => {
                let init = self.optional(&d.init)?;
                Ok(Declared::Plain(x, is_written_pointer(&d.ty), init))
            }
        }
    }

    pub(crate) fn declarations(&self, all: &[Decl]) -> Result<List<Declared>, AllocError>
        ensures { IfOk result (λ l. map erased.declaration l ≡ map (resolution.declaration (scope self.now)) all.now) }
    {
        let mut declarations = List::new(self.alloc);
        for d in all {
            declarations.push(self.declaration(d)?)?;
        }
        Ok(declarations)
    }
}
