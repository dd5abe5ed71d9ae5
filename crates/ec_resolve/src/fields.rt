//! The cells of fields.
ghost use Rattle.std.specs.Prelude.{◌≡◌, ◌≤◌, ◌++◌, true, map, sum_by, Some, option_map, IfOk, OnOk};
ghost use Rattle.std.specs.Option.{IfSome};
ghost use Rattle.ec_base.specs.declared.limits.TheConstants.{MAX_STRUCT_CELLS};
ghost use Rattle.ec_calls.specs.Effects.{joined};
ghost use Rattle.ec_types.specs.Meaning.Layout as layout;
ghost use Rattle.ec_types.specs.Sizes as sizes;
ghost use Rattle.ec_resolve.specs.Pointers as pointers;
ghost use Rattle.ec_resolve.specs.Seen.{found};

use crate::term::Extent;
use ec_base::{List, Text};
use ec_syntax::Field;
use ec_types::{Struct, cells_of, is_written_pointer};
use std::alloc::{AllocError, Global};

/// A field, and its cells.
#[derive(Clone, Copy)]
pub(crate) struct Found<'a> {
    pub(crate) extent: Extent,
    pub(crate) field: &'a Field,
}

/// The cells of fields that have few.
fn cells(fields: &[Field]) -> u32
    requires { sum_by (λ f. sizes.cells_of f.array) fields.now ≤ MAX_STRUCT_CELLS }
    ensures { result ≡ sum_by (λ f. sizes.cells_of f.array) fields.now }
{
    let mut sum = 0;
    for f in fields {
        sum += cells_of(f) as u32;
    }
    sum
}

/// The first field of this name in a small struct.
pub(crate) fn found_in<'a>(s: &Struct<'a>, name: &Text) -> Option<Found<'a>>
    requires { sizes.is_small s.now ≡ true }
    ensures field { option_map found result ≡ layout.found_in (Some s.now) name.now }
    ensures length { IfSome result (λ f. f.extent.length ≡ sizes.cells_of f.field.now.array) }
{
    let at = s.place(name)?;
    let fields = s.def().fields.as_slice();
    let field = fields.get(at)?;
    let number = at as u32;
    let first = cells(&fields[..at]);
    let length = cells_of(field) as u32;
    Some(Found {
        extent: Extent {
            number,
            first,
            length,
        },
        field,
    })
}

/// Tells for each cell of a field whether it is a pointer.
fn tell_cells(told: &mut List<bool>, f: &Field) -> Result<(), AllocError>
    ensures { OnOk result (told.new ≡ told.old ++ pointers.field f.now) }
{
    let pointer = is_written_pointer(&f.ty);
    for _ in 0..cells_of(f) {
        told.push(pointer)?;
    }
    Ok(())
}

/// For each cell of these fields whether it is a pointer.
pub(crate) fn pointers(alloc: Global, fields: &[Field]) -> Result<List<bool>, AllocError>
    ensures { IfOk result (λ l. l ≡ joined (map pointers.field fields.now)) }
{
    let mut told = List::new(alloc);
    for f in fields {
        tell_cells(&mut told, f)?;
    }
    Ok(told)
}
