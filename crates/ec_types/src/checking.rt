//! Whether a program is typed.
ghost use Rattle.std.specs.Prelude.{◌≡◌, IfOk, OnOk};
ghost use Rattle.ec_base.specs.Answers.{IfRefused};
ghost use Rattle.ec_types.specs.Programs.{IsTyped, IsFirst, Decides};

use crate::function::Tables;
use crate::items::{Functions, Structs};
use crate::judged::Judged;
use crate::program::program;
use crate::refusal::TypeRefusal;
use crate::typed::Typed;
use ec_base::Fail;
use ec_calls::first_prints;
use ec_syntax::Program;
use std::alloc::Global;

/// What a program is refused for first, if it is refused.
fn verdict(alloc: Global, p: &Program) -> Judged<()>
    ensures { Decides p.now result }
{
    let items = p.items.as_slice();
    let tables = Tables {
        functions: Functions::of(alloc, items)?,
        structs: Structs::of(alloc, items)?,
        prints: first_prints(alloc, items)?,
    };
    program(alloc, &tables, p.end)
}

/// Types a program: it is kept where it is refused for nothing, and else let go of, with the first of its refusals.
pub fn check(alloc: Global, p: Program) -> Result<Typed, Fail<TypeRefusal>>
    ensures kept { IfOk result (λ t. t ≡ p) }
    ensures typed { OnOk result (IsTyped p) }
    ensures refused { IfRefused result (IsFirst p) }
{
    match verdict(alloc, &p) {
        Err(fail) => Err(fail),
        Ok(()) => Ok(Typed::new(alloc, p)?),
    }
}
