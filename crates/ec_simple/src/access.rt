//! Accesses.
ghost use Rattle.std.specs.Prelude.{◌≡◌, Some, None};
ghost use Rattle.ec_resolve.specs.Erased as erased;
ghost use Rattle.ec_simple.specs.Expressions as low;
ghost use Rattle.ec_simple.specs.Seen.{scope};
ghost use Rattle.ec_types.specs.Meaning.Layout.{or_zero};

use crate::form::SPlaceOf;
use crate::scope::Scope;
use ec_base::Span;
use ec_resolve::Term;

impl Scope<'_, '_> {
    /// A field of an element, by its pointer and index.
    pub(crate) fn element(
        &self,
        at: Span,
        pointer: &Term,
        field: u32,
        base: u32,
        index: u32,
    ) -> SPlaceOf
        ensures { result ≡
            record { base = base; index = index; shape = or_zero (low.pointer (scope self.now) (erased.expression pointer.now)); field = field; sub = None; at = at } }
    {
        let shape = self.pointer(pointer).unwrap_or(0);
        SPlaceOf {
            base,
            index,
            shape,
            field,
            sub: None,
            at,
        }
    }
}

/// A field of the element that stands there.
pub(crate) fn field(at: Span, field: u32, element: SPlaceOf) -> SPlaceOf
    ensures { result ≡ record element { field = field; at = at } }
{
    SPlaceOf {
        base: element.base,
        index: element.index,
        shape: element.shape,
        field,
        sub: element.sub,
        at,
    }
}

/// An element of the array that stands there.
pub(crate) fn item(at: Span, array: SPlaceOf, index: u32) -> SPlaceOf
    ensures { result ≡ record array { sub = Some index; at = at } }
{
    SPlaceOf {
        base: array.base,
        index: array.index,
        shape: array.shape,
        field: array.field,
        sub: Some(index),
        at,
    }
}
