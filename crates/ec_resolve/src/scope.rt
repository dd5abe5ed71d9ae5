//! What is known where a function is resolved.
ghost use Rattle.std.specs.Prelude.{◌≡◌, [], ◌∷◌, map, option_map, IfOk};
ghost use Rattle.std.specs.Option.{IfSome};
ghost use Rattle.ec_calls.specs.Items.{struct_named};
ghost use Rattle.ec_types.specs.Meaning.Layout as layout;
ghost use Rattle.ec_types.specs.Meaning.Resolution as resolution;
ghost use Rattle.ec_types.specs.Sizes as sizes;
ghost use Rattle.ec_types.specs.Types as types;
ghost use Rattle.ec_resolve.specs.Erased as erased;
ghost use Rattle.ec_resolve.specs.Seen.{found, scope};

use crate::fields::{Found, found_in, pointers};
use crate::layouts::Layouts;
use crate::term::Extent;
use crate::variables::Variables;
use ec_base::{List, Text};
use ec_syntax::{Base, Func, Ty};
use ec_types::{
    ExprType, Functions, ValueBase, ValueType, field_type, number, struct_behind, variable_type,
    written_type,
};
use std::alloc::{AllocError, Global};

/// What is known where a function is resolved.
#[derive(Drop)]
pub(crate) struct Scope<'a> {
    pub(crate) alloc: Global,
    pub(crate) structs: &'a Layouts<'a>,
    pub(crate) functions: &'a Functions<'a>,
    pub(crate) variables: Variables<'a>,
}

/// A field of a struct: its cells, and its type.
#[derive(Drop)]
pub(crate) struct Member {
    pub(crate) extent: Extent,
    pub(crate) ty: ExprType,
}

/// One cell, and whether it is a pointer.
fn one_cell(alloc: Global, pointer: bool) -> Result<List<bool>, AllocError>
    ensures { IfOk result (λ l. l ≡ pointer ∷ []) }
{
    List::from_slice(alloc, &[pointer])
}

impl<'a> Scope<'a> {
    /// What is known in a function.
    pub(crate) fn of(
        alloc: Global,
        structs: &'a Layouts<'a>,
        functions: &'a Functions<'a>,
        f: &'a Func,
    ) -> Result<Scope<'a>, AllocError>
        ensures { IfOk result (λ s. scope s ≡ resolution.scope_of structs.now functions.now f.now) }
    {
        Ok(Scope {
            alloc,
            structs,
            functions,
            variables: Variables::of(alloc, f)?,
        })
    }

    /// The number of a variable of the function.
    pub(crate) fn variable_number(&self, name: &Text) -> usize
        ensures { result ≡ resolution.variable_number (scope self.now) name.now }
    {
        self.variables.place(name).unwrap_or(0)
    }

    /// What a variable of the function is as an expression.
    pub(crate) fn variable_type(&self, name: &Text) -> Result<ExprType, AllocError>
        ensures { IfOk result (λ t. t ≡ resolution.variable_is (scope self.now) name.now) }
    {
        match self.variables.named(name) {
            None => Ok(number()),
            Some(d) => variable_type(self.alloc, d),
        }
    }

    /// The number of a function.
    pub(crate) fn function_number(&self, name: &Text) -> usize
        ensures { result ≡ resolution.function_number (scope self.now).functions name.now }
    {
        self.functions.place(name).unwrap_or(0)
    }

    /// What a call of a function gives.
    pub(crate) fn function_type(&self, name: &Text) -> Result<ExprType, AllocError>
        ensures { IfOk result (λ t. t ≡ resolution.function_gives (scope self.now).functions name.now) }
    {
        match self.functions.named(name) {
            None => Ok(number()),
            Some(f) => Ok(ExprType::Value(written_type(self.alloc, &f.result)?)),
        }
    }

    fn base_size(&self, base: &ValueBase) -> u32
        ensures { result ≡ layout.base_size (scope self.now).structs base.now }
    {
        match base {
            ValueBase::Struct(name) => self.structs.size(name).unwrap_or(1),
            _ => 1,
        }
    }

    fn element_size(&self, t: &ValueType) -> u32
        ensures { result ≡ layout.element_size (scope self.now).structs t.now }
    {
        if t.stars == 0 {
            self.base_size(&t.base)
        } else {
            1
        }
    }

    /// The cells of an element of this type.
    pub(crate) fn size_of(&self, t: &ExprType) -> u32
        ensures { result ≡ resolution.size_of (scope self.now).structs t.now }
    {
        match t {
            ExprType::Value(value) => self.element_size(value),
            _ => 1,
        }
    }

    fn field_in(&self, stars: u64, t: &ExprType, name: &Text) -> Option<Found<'a>>
        ensures field { option_map found result ≡ resolution.field_in (scope self.now).structs stars t.now name.now }
        ensures length { IfSome result (λ f. f.extent.length ≡ sizes.cells_of f.field.now.array) }
    {
        match struct_behind(stars, t) {
            None => None,
            Some(of) => match self.structs.named(of) {
                None => None,
                Some(s) => found_in(s, name),
            },
        }
    }

    /// A field of the struct that stands behind so many pointers.
    pub(crate) fn member(&self, stars: u64, t: &ExprType, name: &Text) -> Result<Member, AllocError>
        ensures at { IfOk result (λ m. erased.field m.extent ≡ resolution.field_at (resolution.field_in (scope self.now).structs stars t.now name.now)) }
        ensures ty { IfOk result (λ m. m.ty ≡ resolution.type_at (resolution.field_in (scope self.now).structs stars t.now name.now)) }
    {
        match self.field_in(stars, t, name) {
            None => Ok(Member {
                extent: Extent {
                    number: 0,
                    first: 0,
                    length: 1,
                },
                ty: number(),
            }),
            Some(found) => Ok(Member {
                extent: found.extent,
                ty: field_type(self.alloc, found.field)?,
            }),
        }
    }

    #[tactic(auto, using(crate::proofs::Cells::first_values))]
    /// For each cell of a fresh struct whether it is a pointer.
    fn struct_pointers(&self, name: &Text) -> Result<List<bool>, AllocError>
        ensures { IfOk result (λ l. map erased.first_value l ≡ layout.struct_cells (struct_named (scope self.now).structs name.now)) }
    {
        match self.structs.named(name) {
            None => one_cell(self.alloc, false),
            Some(s) => pointers(self.alloc, s.def().fields.as_slice()),
        }
    }

    fn base_pointers(&self, base: &Base) -> Result<List<bool>, AllocError>
        ensures { IfOk result (λ l. map erased.first_value l ≡ layout.base_cells (scope self.now).structs (types.base_of base.now)) }
    {
        match base {
            Base::Struct(name) => self.struct_pointers(&name.text),
            _ => one_cell(self.alloc, false),
        }
    }

    /// For each cell of a fresh element whether it is a pointer.
    pub(crate) fn pointers(&self, element: &Ty) -> Result<List<bool>, AllocError>
        ensures { IfOk result (λ l. map erased.first_value l ≡ layout.element_cells (scope self.now).structs (types.value_type element.now)) }
    {
        if element.stars == 0 {
            self.base_pointers(&element.base)
        } else {
            one_cell(self.alloc, true)
        }
    }
}
