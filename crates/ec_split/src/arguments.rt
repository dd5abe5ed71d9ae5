//! The instructions of arguments.
ghost use Rattle.std.specs.Prelude.{◌≡◌, ◌+◌, ◌++◌, ◌≤◌, ◌<◌, ◌^◌, true, length, OnOk, IfOk};
ghost use Rattle.std.specs.List.{list_all, range_with_len};
ghost use Rattle.ec_small.specs.Sound.{is_sound};
ghost use Rattle.ec_split.specs.Cut.{args_instrs};

use crate::expression::expression;
use ec_base::{List, MAX_PRINT_ARGUMENTS, MAX_VARIABLES, NoMemory};
use ec_core::Instr;
use ec_small::Expr;
use std::alloc::Global;

/// Appends what computes arguments into the cells from `base` on.
pub fn arguments(out: &mut List<Instr>, base: u32, es: &[Expr]) -> Result<(), NoMemory>
    requires base { base ≤ MAX_VARIABLES }
    requires sound { list_all (is_sound base) es.now ≡ true }
    requires few { length es.now ≤ MAX_PRINT_ARGUMENTS }
    ensures { OnOk result (out.new ≡ out.old ++ args_instrs base es.now) }
{
    let mut cell = base;
    for e in es {
        expression(out, cell, cell, e)?;
        cell += 1;
    }
    Ok(())
}

/// So many cells from `base` on.
#[tactic(auto, using(crate::proofs::Ranges::range_more))]
pub fn cells_from(alloc: Global, base: u32, count: u32) -> Result<List<u32>, NoMemory>
    requires { base + count < 2 ^ 32 }
    ensures { IfOk result (λ cs. cs ≡ range_with_len base count) }
{
    let mut cells = List::new(alloc);
    for k in 0..count {
        cells.push(base + k)?;
    }
    Ok(cells)
}
