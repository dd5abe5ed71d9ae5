//! What a program is refused for.
ghost use Rattle.std.specs.Prelude.{◌≡◌, ◌&&◌, [], map};
ghost use Rattle.std.specs.List.{list_any, list_all};
ghost use Rattle.ec_types.specs.Judged.{Gives};
ghost use Rattle.ec_types.specs.Names as names;
ghost use Rattle.ec_types.specs.Programs as programs;
ghost use Rattle.ec_types.specs.Seen.{judged_by};
ghost use Rattle.ec_types.specs.Types.{is_int, value_type};

use crate::declared_type::is_written_int;
use crate::distinct::distinct;
use crate::function::{Tables, all_functions};
use crate::items::{Functions, Structs};
use crate::judged::{Judged, also, must};
use crate::name_list::NameList;
use crate::structure::structures;
use ec_base::{Reason, Span};
use ec_syntax::{Decl, Func, Mode};
use std::alloc::Global;

fn is_plain(mode: Mode) -> bool
    ensures { result ≡ programs.is_plain mode }
{
    match mode {
        Mode::Plain => true,
        Mode::Local => false,
        Mode::Shared => false,
    }
}

/// Whether all parameters are plain ints.
fn takes_ints(params: &[Decl]) -> bool
    ensures { result ≡ list_all (λ d. programs.is_plain d.mode && is_int (value_type d.ty)) params.now }
{
    for d in params {
        if !(is_plain(d.mode) && is_written_int(&d.ty)) {
            return false;
        }
    }
    true
}

fn is_main(f: &Func) -> bool
    ensures { result ≡ programs.is_main f.now }
{
    f.name.text.as_slice() == b"main".as_slice()
        && is_written_int(&f.result)
        && takes_ints(f.params.as_slice())
}

fn has_main(functions: &[&Func]) -> bool
    ensures { result ≡ list_any programs.is_main (map (λ f. f.now) functions.now) }
{
    for f in functions {
        if is_main(f) {
            return true;
        }
    }
    false
}

fn distinct_functions(alloc: Global, functions: &Functions) -> Judged<()>
    ensures { Gives result (names.distinct [] (map (λ f. f.name) functions.now)) }
{
    let names = NameList::of_functions(alloc, functions.all())?;
    distinct(alloc, names.as_slice())
}

fn distinct_structs(alloc: Global, structs: &Structs) -> Judged<()>
    ensures { Gives result (names.distinct [] (map (λ s. s.name) structs.now)) }
{
    let names = NameList::of_structs(alloc, structs.all())?;
    distinct(alloc, names.as_slice())
}

/// A program by its tables, and the place of its end.
pub(crate) fn program(alloc: Global, tables: &Tables, end: Span) -> Judged<()>
    ensures { Gives result (judged_by tables.now end) }
{
    let main = must(has_main(tables.functions.all()), Reason::NoMain, end);
    let rest = also(all_functions(alloc, tables), main);
    let rest = also(structures(alloc, &tables.structs), rest);
    let rest = also(distinct_structs(alloc, &tables.structs), rest);
    also(distinct_functions(alloc, &tables.functions), rest)
}
