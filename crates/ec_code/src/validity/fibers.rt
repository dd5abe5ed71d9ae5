//! Whether fibers are valid.
ghost use Rattle.std.specs.Prelude.{◌≡◌, length};
ghost use Rattle.ec_code.specs.Valid as valid;

use crate::code::{Fiber, Function};
use crate::instr::Instr;
use crate::validity::instructions::valid_instr;

/// Whether the last instruction ends the fiber.
#[tactic(auto, using(crate::proofs::Ends::ends_at_last))]
fn ends_last(instrs: &[Instr]) -> bool
    ensures { result ≡ valid.ends_last instrs.now }
{
    match instrs.last() {
        None => false,
        Some(x) => x.ends(),
    }
}

/// Whether each instruction of a fiber is valid.
fn valid_instrs(functions: &[Function], f: &Function, instrs: &[Instr]) -> bool
    ensures { result ≡ valid.valid_from functions.now f.now (length instrs.now) 0 instrs.now }
{
    for (place, x) in instrs.iter().enumerate() {
        if !valid_instr(functions, f, instrs.len(), place, x) {
            return false;
        }
    }
    true
}

/// Whether a fiber of a function is valid.
pub(super) fn valid_fiber(functions: &[Function], f: &Function, x: &Fiber) -> bool
    ensures { result ≡ valid.valid_fiber functions.now f.now x.now }
{
    let instrs = x.instrs.as_slice();
    ends_last(instrs) && valid_instrs(functions, f, instrs)
}
