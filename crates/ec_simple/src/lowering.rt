//! Programs.
ghost use Rattle.std.specs.Prelude.{◌≡◌, ◌++◌, length, map, IfOk, OnOk};
ghost use Rattle.ec_resolve.specs.Erased as erased;
ghost use Rattle.ec_simple.specs.Lower as low;
ghost use Rattle.ec_simple.specs.Written.{PutsWritten, results};
ghost use Rattle.ec_types.specs.Programs.{IsTyped};

use crate::form::{Form, FuncKind, SFunc, SVar};
use crate::numbered::{Numbered, narrow, narrow_all};
use crate::outline::of_variable;
use crate::scope::{Numbering, Scope};
use crate::shapes::shapes;
use crate::simple::Simple;
use ec_base::{List, NoMemory, Span, Text};
use ec_resolve::{Function, resolve};
use ec_syntax::Func;
use ec_types::{Functions, Typed};
use std::alloc::{AllocError, Global};

/// The variables of a written function, and behind them that of its result.
fn own_variables(alloc: Global, f: &Function) -> Result<List<SVar>, AllocError>
    ensures { IfOk result (λ l. l ≡ low.own_variables (erased.function f.now)) }
{
    let mut vars = List::new(alloc);
    for v in f.variables.as_slice() {
        vars.push(of_variable(*v))?;
    }
    if !f.void {
        vars.push(SVar {
            at: Span { from: 0, to: 0 },
            local: false,
            pointer: f.pointer,
            shape: f.shape,
        })?;
    }
    Ok(vars)
}

/// The variable of the result of a written function.
fn results(alloc: Global, f: &Function) -> Result<List<u32>, AllocError>
    ensures { IfOk result (λ l. l ≡ results (erased.function f.now)) }
{
    let mut results = List::new(alloc);
    if !f.void {
        results.push(narrow(f.variables.len())?)?;
    }
    Ok(results)
}

/// A written function, whose branches and bodies go to the others.
fn written(
    alloc: Global,
    all: &[Function],
    name: &Text,
    f: &Function,
    outlined: &mut Numbered<SFunc>,
) -> Result<SFunc, AllocError>
    ensures { IfOk result (λ s. PutsWritten (map erased.function all.now) name.now (erased.function f.now) s outlined.old outlined.new) }
{
    let scope = Scope {
        alloc,
        functions: all,
        name,
        params: f.params.as_slice(),
        variables: f.variables.as_slice(),
        first: outlined.next,
        numbering: Numbering::Same,
    };
    let own = own_variables(alloc, f)?;
    let next = narrow(own.len())?;
    let mut vars = Numbered { all: own, next };
    let mut body = List::new(alloc);
    scope.block(&f.body, &mut body, &mut vars, outlined)?;
    Ok(SFunc {
        name: name.copy(alloc)?,
        kind: FuncKind::Written,
        vars: vars.all,
        params: narrow_all(alloc, f.params.as_slice())?,
        results: results(alloc, f)?,
        body,
    })
}

/// The written functions, and then those of branches and bodies.
fn functions(alloc: Global, named: &[&Func], all: &[Function]) -> Result<List<SFunc>, AllocError>
    requires { length all.now ≡ length named.now }
    ensures { IfOk result (λ l. l ≡
        low.all_written (map erased.function all.now) (map (λ f. f.name.text) (map (λ f. f.now) named.now)) (map erased.function all.now) (length all.now)
        ++ low.all_outlined (map erased.function all.now) (map (λ f. f.name.text) (map (λ f. f.now) named.now)) (map erased.function all.now) (length all.now)) }
{
    let mut functions = List::new(alloc);
    let mut outlined = Numbered {
        all: List::new(alloc),
        next: narrow(all.len())?,
    };
    for k in 0..all.len() {
        let name = &named[k].name.text;
        functions.push(written(alloc, all, name, &all[k], &mut outlined)?)?;
    }
    functions.append(outlined.all)?;
    Ok(functions)
}

/// The form of a program's blocks and functions.
fn form_of(alloc: Global, t: &Typed) -> Result<Form, AllocError>
    ensures lowered { IfOk result (λ f. f ≡ low.lowered t.now) }
    ensures typed { OnOk result (IsTyped t.now) }
{
    let items = t.program().items.as_slice();
    let shapes = shapes(alloc, items)?;
    let named = Functions::of(alloc, items)?;
    let resolved = resolve(alloc, t)?;
    let funcs = functions(alloc, named.all(), resolved.functions.as_slice())?;
    Ok(Form { shapes, funcs })
}

/// The simple form of a typed program.
pub fn lower(alloc: Global, t: &Typed) -> Result<Simple, NoMemory>
    ensures { IfOk result (λ s. s ≡ low.lowered t.now) }
{
    let form = form_of(alloc, t)?;
    Ok(Simple::new(form))
}
