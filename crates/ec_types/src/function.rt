//! What functions are refused for.
ghost use Rattle.std.specs.Prelude.{◌≡◌, ◌++◌, [], map, IfOk};
ghost use Rattle.ec_types.specs.Declarations as declarations;
ghost use Rattle.ec_calls.specs.Effects.{doing};
ghost use Rattle.ec_types.specs.Judged.{Gives, every};
ghost use Rattle.ec_types.specs.Names as names;
ghost use Rattle.ec_types.specs.Programs as programs;
ghost use Rattle.ec_types.specs.Seen.{context, start_by, function_by};
ghost use Rattle.ec_types.specs.Types as types;

use crate::declared_type::{is_written_int, is_written_pointer, is_written_void};
use crate::distinct::distinct;
use crate::items::{Functions, Structs};
use crate::judge::Judge;
use crate::judged::{Judged, also, must};
use crate::name_list::NameList;
use crate::names::known;
use crate::value_type::{ValueType, written_type};
use ec_base::Reason;
use ec_calls::FirstPrints;
use ec_syntax::{Decl, Func, Ty};
use std::alloc::{AllocError, Global};

/// Whether a function may give a value of this type, or none.
fn is_result(ty: &Ty) -> bool
    ensures { result ≡ declarations.is_result (types.value_type ty.now) }
{
    is_written_void(ty) || is_written_int(ty) || is_written_pointer(ty)
}

/// The parameters and variables of a function are declared once.
fn distinct_variables(alloc: Global, f: &Func) -> Judged<()>
    ensures { Gives result (names.distinct [] (map (λ d. d.name) f.now.params ++ (doing f.now.body).variables)) }
{
    let names = NameList::of_variables(alloc, f)?;
    distinct(alloc, names.as_slice())
}

impl Judge<'_> {
    fn parameters(&self, all: &[Decl]) -> Judged<()>
        ensures { Gives result (every (map (declarations.parameter (context self.now)) all.now)) }
    {
        let mut so_far = Ok(());
        for d in all {
            so_far = also(so_far, self.parameter(d));
        }
        so_far
    }

    /// A function, where its parameters are in scope.
    fn function(&self, f: &Func) -> Judged<()>
        ensures { Gives result (programs.function (context self.now) f.now) }
    {
        let allowed = must(is_result(&f.result), Reason::Mismatch, f.name.at);
        let inside = also(distinct_variables(self.alloc, f), self.body(&f.body));
        let rest = also(self.parameters(f.params.as_slice()), inside);
        let rest = also(allowed, rest);
        also(known(self.structs, &f.result), rest)
    }
}

/// The parameters of a function, as its first scope.
fn scope_of<'a>(alloc: Global, params: &'a [Decl]) -> Result<Vec<&'a Decl>, AllocError>
    ensures { IfOk result (λ ds. map (λ d. d.now) ds.items ≡ params.now) }
{
    let mut scope = Vec::new(alloc);
    for d in params {
        scope.push(d)?;
    }
    Ok(scope)
}

/// The tables of a program, by which its functions are judged.
#[derive(Drop)]
pub(crate) struct Tables<'a> {
    pub(crate) functions: Functions<'a>,
    pub(crate) structs: Structs<'a>,
    pub(crate) prints: FirstPrints,
}

fn judge_of<'a>(
    alloc: Global,
    tables: &'a Tables<'a>,
    value: &'a ValueType,
    f: &'a Func,
) -> Result<Judge<'a>, AllocError>
    requires { value.now ≡ types.value_type f.now.result }
    ensures { IfOk result (λ j. context j ≡ start_by tables.now f.now) }
{
    Ok(Judge {
        alloc,
        functions: &tables.functions,
        structs: &tables.structs,
        prints: &tables.prints,
        result: value,
        inside: false,
        scope: scope_of(alloc, f.params.as_slice())?,
    })
}

fn function(alloc: Global, tables: &Tables, f: &Func) -> Judged<()>
    ensures { Gives result (function_by tables.now f.now) }
{
    let result = written_type(alloc, &f.result)?;
    let judge = judge_of(alloc, tables, &result, f)?;
    judge.function(f)
}

/// All functions of a program.
pub(crate) fn all_functions(alloc: Global, tables: &Tables) -> Judged<()>
    ensures { Gives result (every (map (function_by tables.now) tables.now.functions)) }
{
    let mut so_far = Ok(());
    for f in tables.functions.all() {
        so_far = also(so_far, function(alloc, tables, f));
    }
    so_far
}
