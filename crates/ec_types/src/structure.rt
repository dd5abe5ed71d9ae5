//! What structs are refused for.
ghost use Rattle.std.specs.Prelude.{◌≡◌, [], map};
ghost use Rattle.ec_types.specs.Declarations as declarations;
ghost use Rattle.ec_types.specs.Judged.{Gives, every};
ghost use Rattle.ec_types.specs.Names as names;
ghost use Rattle.ec_types.specs.Programs as programs;

use crate::declared_type::{is_written_int, is_written_pointer};
use crate::distinct::distinct;
use crate::items::Structs;
use crate::judged::{Judged, also, must};
use crate::name_list::NameList;
use crate::names::known;
use crate::size::is_small;
use ec_base::Reason;
use ec_syntax::{Field, StructDef};
use std::alloc::Global;

/// Whether a field is of a type that is allowed.
fn is_field(f: &Field) -> bool
    ensures { result ≡ declarations.is_field f.now }
{
    is_written_int(&f.ty) || (f.array.is_none() && is_written_pointer(&f.ty))
}

fn field(structs: &Structs, f: &Field) -> Judged<()>
    ensures { Gives result (programs.field structs.now f.now) }
{
    let allowed = must(is_field(f), Reason::Mismatch, f.name.at);
    also(known(structs, &f.ty), allowed)
}

fn fields(structs: &Structs, all: &[Field]) -> Judged<()>
    ensures { Gives result (every (map (programs.field structs.now) all.now)) }
{
    let mut so_far = Ok(());
    for f in all {
        so_far = also(so_far, field(structs, f));
    }
    so_far
}

/// The fields of a struct are declared once.
fn distinct_fields(alloc: Global, s: &StructDef) -> Judged<()>
    ensures { Gives result (names.distinct [] (map (λ f. f.name) s.now.fields)) }
{
    let names = NameList::of_fields(alloc, s.fields.as_slice())?;
    distinct(alloc, names.as_slice())
}

fn structure(alloc: Global, structs: &Structs, s: &StructDef) -> Judged<()>
    ensures { Gives result (programs.structure structs.now s.now) }
{
    let small = must(is_small(s), Reason::StructTooBig, s.name.at);
    let rest = also(small, fields(structs, s.fields.as_slice()));
    also(distinct_fields(alloc, s), rest)
}

/// All structs of a program.
pub(crate) fn structures(alloc: Global, structs: &Structs) -> Judged<()>
    ensures { Gives result (every (map (programs.structure structs.now) structs.now)) }
{
    let mut so_far = Ok(());
    for s in structs.all() {
        so_far = also(so_far, structure(alloc, structs, s.def()));
    }
    so_far
}
