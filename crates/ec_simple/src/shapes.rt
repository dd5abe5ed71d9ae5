//! Shapes.
ghost use Rattle.std.specs.Prelude.{◌≡◌, filter_map, IfOk};
ghost use Rattle.ec_calls.specs.Items as declared;
ghost use Rattle.ec_simple.specs.Lower as low;
ghost use Rattle.ec_types.specs.Sizes as sizes;
ghost use Rattle.ec_types.specs.Types as types;

use crate::form::{SField, Shape};
use crate::numbered::sum;
use ec_base::List;
use ec_syntax::{Field, Item, StructDef};
use ec_types::{cells_of, is_written_pointer};
use std::alloc::{AllocError, Global};

fn one_cell(alloc: Global, pointer: bool) -> Result<Shape, AllocError>
    ensures { IfOk result (λ s. s ≡ low.of_one_cell pointer) }
{
    let field = SField {
        at: 0,
        cells: 1,
        pointer,
    };
    let fields = List::from_slice(alloc, &[field])?;
    Ok(Shape { cells: 1, fields })
}

/// A field that begins at a cell.
fn field(at: u32, f: &Field) -> Result<SField, AllocError>
    ensures { IfOk result (λ s. s ≡ record { at = at; cells = sizes.cells_of f.now.array; pointer = types.is_pointer (types.value_type f.now.ty) }) }
{
    let pointer = is_written_pointer(&f.ty);
    match u32::try_from(cells_of(f)) {
        Ok(cells) => Ok(SField { at, cells, pointer }),
        Err(_) => Err(AllocError),
    }
}

fn of_struct(alloc: Global, d: &StructDef) -> Result<Shape, AllocError>
    ensures { IfOk result (λ s. s ≡ low.of_struct d.now) }
{
    let mut cells = 0;
    let mut fields = List::new(alloc);
    for f in d.fields.as_slice() {
        let field = field(cells, f)?;
        fields.push(field)?;
        cells = sum(cells, field.cells)?;
    }
    Ok(Shape { cells, fields })
}

/// The shapes of a program: those of an int, of a pointer, and of the structs in order.
pub(crate) fn shapes(alloc: Global, items: &[Item]) -> Result<List<Shape>, AllocError>
    ensures { IfOk result (λ l. l ≡ low.shapes (filter_map declared.as_struct items.now)) }
{
    let mut shapes = List::new(alloc);
    shapes.push(one_cell(alloc, false)?)?;
    shapes.push(one_cell(alloc, true)?)?;
    for item in items {
        match item {
            Item::Func(_) => {}
            Item::Struct(d) => shapes.push(of_struct(alloc, d)?)?,
        }
    }
    Ok(shapes)
}
