//! What expressions resolve to.
ghost use Rattle.std.specs.Prelude.{◌≡◌, IfOk};
ghost use Rattle.ec_types.specs.Meaning.Resolution as resolution;
ghost use Rattle.ec_types.specs.Types as types;
ghost use Rattle.ec_resolve.specs.Erased as erased;
ghost use Rattle.ec_resolve.specs.Operands.{operand, form};

use crate::term::{Place, Term};
use ec_base::{Boxed, Span};
use ec_types::{ExprType, number};
use std::alloc::{AllocError, Global};

/// What an expression is: an access, which may give a pointer to elements of this shape, or any other.
#[derive(Drop)]
pub(crate) enum Form {
    Plain(Boxed<Term>),
    Access(Option<u32>, Boxed<Place>),
}

/// An expression, and its type.
#[derive(Drop)]
pub(crate) struct Operand {
    pub(crate) ty: ExprType,
    pub(crate) form: Form,
}

/// What is no access.
pub(crate) fn valued(alloc: Global, ty: ExprType, term: Term) -> Result<Operand, AllocError>
    ensures { IfOk result (λ o. operand o ≡ resolution.valued ty (erased.expression term)) }
{
    Ok(Operand {
        ty,
        form: Form::Plain(Boxed::new(alloc, term)?),
    })
}

/// An int that is no access.
pub(crate) fn numbered(alloc: Global, term: Term) -> Result<Operand, AllocError>
    ensures { IfOk result (λ o. operand o ≡ resolution.valued types.number (erased.expression term)) }
{
    valued(alloc, number(), term)
}

impl Form {
    pub(crate) fn into_value(self, alloc: Global) -> Result<Boxed<Term>, AllocError>
        ensures { IfOk result (λ t. erased.expression t ≡ resolution.value_of (form self)) }
    {
        match self {
            Form::Plain(term) => Ok(term),
            Form::Access(pointer, place) => {
                Boxed::new(alloc, Term::Load(pointer, place.into_inner()))
            }
        }
    }

    /// What is no access may stand for the element behind it.
    pub(crate) fn into_place(self, alloc: Global) -> Result<Boxed<Place>, AllocError>
        ensures { IfOk result (λ p. erased.place p ≡ resolution.place_of (form self)) }
    {
        match self {
            Form::Plain(term) => {
                Boxed::new(
                    alloc,
                    Place::Element(Span { from: 0, to: 0 }, 1, term, None),
                )
            }
            Form::Access(_, place) => Ok(place),
        }
    }

    /// The variable that this is, and where it stands.
    pub(crate) fn variable(&self) -> Option<(Span, usize)>
        ensures { result ≡ resolution.variable_in (form self.now) }
    {
        match self {
            Form::Plain(term) => match term.get() {
                Term::Var(at, x) => Some((*at, *x)),
                _ => None,
            },
            Form::Access(_, _) => None,
        }
    }
}
