//! Whether what instructions name is there.
ghost use Rattle.std.specs.Prelude.{◌≡◌, slice_get};
ghost use Rattle.std.specs.List.{list_any};
ghost use Rattle.ec_code.specs.Operands.{slot_set_up};
ghost use Rattle.ec_code.specs.Valid as valid;

use crate::code::{Fiber, Function};
use crate::instr::Instr;
use crate::validity::sizes::has_sizes;

impl Fiber {
    /// Whether an instruction of the fiber sets a slot up.
    fn sets_up(&self, slot: u32) -> bool
        ensures { result ≡ list_any (λ x. valid.is_number slot (slot_set_up x)) self.now.instrs }
    {
        self.instrs
            .as_slice()
            .iter()
            .any(|x| x.slot_set_up() == Some(slot))
    }
}

impl Function {
    /// Whether an instruction of the function sets a slot up.
    fn sets_up(&self, slot: u32) -> bool
        ensures { result ≡ valid.is_set_up self.now slot }
    {
        self.fibers
            .as_slice()
            .iter()
            .any(|fiber| fiber.sets_up(slot))
    }

    /// Whether a slot, where one is named, is the function's and set up.
    fn has_slot(&self, named: Option<u32>) -> bool
        ensures { result ≡ valid.passes (valid.is_slot self.now) named }
    {
        match named {
            None => true,
            Some(slot) => slot < self.slots && self.sets_up(slot),
        }
    }

    /// Whether a fiber, where one is named, is the function's.
    fn has_fiber(&self, named: Option<u32>) -> bool
        ensures { result ≡ valid.passes (valid.is_fiber self.now) named }
    {
        match named {
            None => true,
            Some(fiber) => (fiber as usize) < self.fibers.len(),
        }
    }
}

/// Whether a jump, where there is one, goes from its place further down, and stays among so many instructions.
fn is_ahead(place: usize, count: usize, target: Option<u32>) -> bool
    ensures { result ≡ valid.passes (valid.is_ahead place count) target }
{
    match target {
        None => true,
        Some(target) => place < target as usize && (target as usize) < count,
    }
}

/// Whether a function of this number is there, and has so many results and parameters.
fn suits(functions: &[Function], number: u32, results: usize, args: usize) -> bool
    ensures { result ≡ valid.suits (slice_get functions.now number) results args }
{
    match functions.get(number as usize) {
        None => false,
        Some(f) => results == f.results as usize && args == f.params as usize,
    }
}

/// Whether a call, or an end of the function, has as many results and arguments as it is to have.
fn has_results(functions: &[Function], f: &Function, x: &Instr) -> bool
    ensures { result ≡ valid.has_results functions.now f.now x.now }
{
    match x {
        Instr::Invoke(number, _, results, _, args) => {
            suits(functions, *number, results.len(), args.len())
        }
        Instr::EndFunction(cells) => cells.len() == f.results as usize,
        _ => true,
    }
}

/// Whether an instruction is valid in a function, at this place of a fiber of so many instructions.
pub(super) fn valid_instr(
    functions: &[Function],
    f: &Function,
    count: usize,
    place: usize,
    x: &Instr,
) -> bool
    ensures { result ≡ valid.valid_instr functions.now f.now count place x.now }
{
    f.has_cells(x)
        && has_sizes(x)
        && has_results(functions, f, x)
        && f.has_slot(x.slot())
        && f.has_fiber(x.fiber())
        && is_ahead(place, count, x.jump_target())
}
