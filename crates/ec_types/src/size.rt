//! The cells of structs.
ghost use Rattle.std.specs.Prelude.{◌≡◌, ◌-◌, ◌^◌, min};
ghost use Rattle.std.specs.List.{list_all};
ghost use Rattle.ec_types.specs.Sizes as sizes;

use ec_base::{MAX_ARRAY, MAX_STRUCT_CELLS};
use ec_syntax::{Field, StructDef};

/// A length, or 0 where it is negative.
fn magnitude(length: i64) -> u64
    ensures { result ≡ sizes.magnitude length }
{
    if length < 0 { 0 } else { length as u64 }
}

/// The cells of a field: one, or as many as its length.
pub fn cells_of(f: &Field) -> u64
    ensures { result ≡ sizes.cells_of f.now.array }
{
    match f.array {
        None => 1,
        Some(length) => magnitude(length),
    }
}

/// The cells of a struct, as far as they can be counted.
pub(crate) fn cells(s: &StructDef) -> u64
    ensures { result ≡ min (sizes.cells s.now) (2 ^ 64 - 1) }
{
    let mut sum: u64 = 0;
    for f in s.fields.as_slice() {
        sum = sum.saturating_add(cells_of(f));
    }
    sum
}

fn is_length(array: Option<i64>) -> bool
    ensures { result ≡ sizes.is_length array }
{
    match array {
        None => true,
        Some(length) => {
            let length = magnitude(length);
            1 <= length && length <= MAX_ARRAY as u64
        }
    }
}

fn all_lengths(fields: &[Field]) -> bool
    ensures { result ≡ list_all (λ f. sizes.is_length f.array) fields.now }
{
    for f in fields {
        if !is_length(f.array) {
            return false;
        }
    }
    true
}

pub(crate) fn is_small(s: &StructDef) -> bool
    ensures { result ≡ sizes.is_small s.now }
{
    cells(s) <= MAX_STRUCT_CELLS as u64 && all_lengths(s.fields.as_slice())
}
