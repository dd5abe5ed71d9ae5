//! The one function of a small program.
ghost use Rattle.std.specs.Prelude.{◌≡◌, true, IfOk};
ghost use Rattle.ec_core.specs.Valid.{valid};
ghost use Rattle.ec_small.specs.Sound.{Sound};
ghost use Rattle.ec_split.specs.Owes.{Owes};
ghost use Rattle.ec_split.specs.Cut.{main_of, code_of};

use crate::builder::Builder;
use crate::width::temporaries;
use ec_base::{List, NoMemory, Text};
use ec_core::{Code, Function};
use ec_small::Program;
use std::alloc::Global;

fn main_of(alloc: Global, p: &Program) -> Result<Function, NoMemory>
    requires { Sound p.now }
    ensures { IfOk result (λ f. f ≡ main_of p.now) }
{
    let base = p.inits.len() as u32;
    let mut builder = Builder::new(alloc, base);
    builder.initialisers(p.inits.as_slice())?;
    builder.statements(p.stmts.as_slice())?;
    let fibers = builder.finish(&p.result)?;
    Ok(Function {
        name: Text::from_slice(alloc, b"main")?,
        params: 0,
        results: 1,
        cells: base + temporaries(p),
        slots: 1,
        fibers,
    })
}

/// The fiber code of a small program: its one function. A program of more fibers than numbers of 32 bits wants memory.
#[tactic(auto, using(crate::proofs::Owing::owes, crate::proofs::Validity::valid_code))]
pub fn split(alloc: Global, p: &Program) -> Result<Code, NoMemory>
    requires { Sound p.now }
    ensures owes { IfOk result (Owes p.now) }
    ensures valid { IfOk result (λ c. valid c ≡ true) }
    ensures cut { IfOk result (λ c. c ≡ code_of p.now) }
{
    let mut functions = List::new(alloc);
    functions.push(main_of(alloc, p)?)?;
    Ok(Code { main: 0, functions })
}
