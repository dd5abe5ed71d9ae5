//! Accesses from values.
ghost use Rattle.std.specs.Prelude.{◌≡◌};
ghost use Rattle.ec_resolve.specs.Erased as erased;
ghost use Rattle.ec_types.specs.Meaning.Evaluation.{element_of, field_of, item_of};
ghost use Rattle.ec_types.specs.Meaning.Memory.{shared};
ghost use Rattle.ec_meaning.specs.Seen as seen;
ghost use Rattle.ec_meaning.specs.Seen.{Untold, val};

use crate::value::{Access, Value};
use ec_base::Span;
use ec_resolve::Extent;

/// What is no array field: one cell.
const ONE_CELL: Extent = Extent {
    number: 0,
    first: 0,
    length: 1,
};

impl Access {
    /// The element of this index.
    pub(crate) fn element(at: Span, size: u32, base: Value, index: Value) -> Access
        ensures { (u : Untold) → seen.access u result ≡ element_of at size (val u base) (val u index) }
    {
        Access {
            at,
            base,
            index: index.number(),
            size,
            field: ONE_CELL,
            item: 0,
        }
    }

    /// A field of this element.
    pub(crate) fn field(self, at: Span, field: Extent) -> Access
        ensures { (u : Untold) → seen.access u result ≡ field_of at (erased.field field) (seen.access u self) }
    {
        Access { at, field, ..self }
    }

    /// The item of this index in an array field.
    pub(crate) fn item(self, at: Span, index: Value) -> Access
        ensures { (u : Untold) → seen.access u result ≡ item_of at (seen.access u self) (val u index) }
    {
        Access {
            at,
            item: index.number(),
            ..self
        }
    }

    /// The cell of a shared variable.
    pub(crate) fn shared(at: Span, variable: Value) -> Access
        ensures { (u : Untold) → seen.access u result ≡ shared at (val u variable) }
    {
        Access::element(at, 1, variable, Value::Int(0))
    }
}
