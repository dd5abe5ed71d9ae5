//! Resolving programs.
ghost use Rattle.std.specs.Prelude.{◌≡◌, map, codes, IfOk};
ghost use Rattle.ec_types.specs.Meaning.Resolution as resolution;
ghost use Rattle.ec_resolve.specs.Erased as erased;
ghost use Rattle.ec_resolve.specs.Seen.{scope};

use crate::action::{Function, Resolved, Variable};
use crate::layouts::Layouts;
use crate::scope::Scope;
use ec_base::{List, Text};
use ec_syntax::{Decl, Func, Mode};
use ec_types::{Functions, Typed, is_written_pointer, is_written_void};
use std::alloc::{AllocError, Global};

impl Scope<'_> {
    /// The numbers of variables of the function.
    fn numbers(&self, all: &[Decl]) -> Result<List<usize>, AllocError>
        ensures { IfOk result (λ l. l ≡ map (λ d. resolution.variable_number (scope self.now) d.name.text) all.now) }
    {
        let mut numbers = List::new(self.alloc);
        for d in all {
            numbers.push(self.variable_number(&d.name.text))?;
        }
        Ok(numbers)
    }

    /// A shared variable points at its one cell, an int.
    fn variable(&self, d: &Decl) -> Result<Variable, AllocError>
        ensures { IfOk result (λ v. erased.variable v ≡ resolution.variable (scope self.now).structs d.now) }
    {
        let at = d.name.at;
        match d.mode {
            Mode::Plain => Ok(Variable {
                at,
                shared: false,
                local: false,
                pointer: self.written_pointer(&d.ty)?,
            }),
            Mode::Local => Ok(Variable {
                at,
                shared: false,
                local: true,
                pointer: self.written_pointer(&d.ty)?,
            }),
            Mode::Shared => Ok(Variable {
                at,
                shared: true,
                local: false,
                pointer: Some(0),
            }),
        }
    }

    /// The parameters and variables of the function.
    fn declared(&self) -> Result<List<Variable>, AllocError>
        ensures { IfOk result (λ l. map erased.variable l ≡ map (resolution.variable (scope self.now).structs) (scope self.now).variables) }
    {
        let mut declared = List::new(self.alloc);
        for d in self.variables.all() {
            declared.push(self.variable(d)?)?;
        }
        Ok(declared)
    }

    fn function(&self, f: &Func) -> Result<Function, AllocError>
        ensures { IfOk result (λ r. erased.function r ≡ resolution.function_in (scope self.now) f.now) }
    {
        let params = self.numbers(f.params.as_slice())?;
        let variables = self.declared()?;
        let pointer = self.written_pointer(&f.result)?;
        let body = self.body(&f.body)?;
        Ok(Function {
            params,
            variables,
            void: is_written_void(&f.result),
            pointer: is_written_pointer(&f.result),
            shape: pointer.unwrap_or(0),
            body,
        })
    }
}

fn function(
    alloc: Global,
    structs: &Layouts,
    functions: &Functions,
    f: &Func,
) -> Result<Function, AllocError>
    ensures { IfOk result (λ r. erased.function r ≡ resolution.function structs.now functions.now f.now) }
{
    let scope = Scope::of(alloc, structs, functions, f)?;
    scope.function(f)
}

fn all_functions(
    alloc: Global,
    structs: &Layouts,
    functions: &Functions,
) -> Result<List<Function>, AllocError>
    ensures { IfOk result (λ l. map erased.function l ≡ map (resolution.function structs.now functions.now) functions.now) }
{
    let mut all = List::new(alloc);
    for f in functions.all() {
        all.push(function(alloc, structs, functions, f)?)?;
    }
    Ok(all)
}

/// The number of the function `main`.
fn main_number(alloc: Global, functions: &Functions) -> Result<usize, AllocError>
    ensures { IfOk result (λ n. n ≡ resolution.function_number functions.now (codes "main")) }
{
    let name = Text::from_slice(alloc, b"main")?;
    Ok(functions.place(&name).unwrap_or(0))
}

/// A typed program with its names and types resolved.
pub fn resolve(alloc: Global, t: &Typed) -> Result<Resolved, AllocError>
    ensures functions { IfOk result (λ r. map erased.function r.functions ≡ resolution.program t.now) }
    ensures main { IfOk result (λ r. r.main ≡ resolution.main_number t.now) }
{
    let structs = Layouts::of(alloc, t)?;
    let functions = Functions::of(alloc, t.program().items.as_slice())?;
    let main = main_number(alloc, &functions)?;
    let functions = all_functions(alloc, &structs, &functions)?;
    Ok(Resolved { functions, main })
}
