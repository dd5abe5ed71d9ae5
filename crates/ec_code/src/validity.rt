//! Whether code is valid.
ghost use Rattle.std.specs.Prelude.{◌≡◌, slice_get};
ghost use Rattle.std.specs.List.{list_all};
ghost use Rattle.ec_code.specs.Valid as valid;

mod cells;
mod fibers;
mod instructions;
mod names;
mod sizes;

use crate::code::{Code, Fiber, Function};
use fibers::valid_fiber;
use names::is_function_name;

fn are_valid_fibers(functions: &[Function], f: &Function, fibers: &[Fiber]) -> bool
    ensures { result ≡ list_all (valid.valid_fiber functions.now f.now) fibers.now }
{
    fibers.iter().all(|fiber| valid_fiber(functions, f, fiber))
}

/// Whether a function is valid among all of its program.
fn valid_function(functions: &[Function], f: &Function) -> bool
    ensures { result ≡ valid.valid_function functions.now f.now }
{
    is_function_name(f.name.as_slice())
        && f.params <= f.cells
        && !f.fibers.is_empty()
        && are_valid_fibers(functions, f, f.fibers.as_slice())
}

fn are_valid(functions: &[Function]) -> bool
    ensures { result ≡ list_all (valid.valid_function functions.now) functions.now }
{
    functions.iter().all(|f| valid_function(functions, f))
}

/// Whether a function of this number is there, and has one result.
fn has_one_result(functions: &[Function], main: u32) -> bool
    ensures { result ≡ valid.has_one_result (slice_get functions.now main) }
{
    match functions.get(main as usize) {
        None => false,
        Some(f) => f.results == 1,
    }
}

/// Whether every number in the code names something that exists, every limit is kept, jumps go forward, every fiber ends with an
/// instruction that ends it, each slot that is named is set up, and main is there and has one result.
pub fn valid(c: &Code) -> bool
    ensures { result ≡ valid.valid c.now }
{
    let functions = c.functions.as_slice();
    has_one_result(functions, c.main) && are_valid(functions)
}
