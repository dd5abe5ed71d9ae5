//! The fiber code of a small program.
use crate::source::program_of;
use ec_base::Fail;
use ec_core::{Code, Function, Instr};
use ec_split::split;
use std::alloc::{AllocError, Global};
use std::fmt::Write;
use std::process::Abort;

const SOURCE: &[u8] =
    b"int main(){ int x = 2; x = x - 5; printf(\"%d %d\", x, x * x); return x + 3; }";

fn write_instr(out: &mut String, instr: &Instr) -> Result<(), AllocError> {
    match instr {
        Instr::Const(d, k) => write!(out, "CONST {d} {k}; "),
        Instr::Copy(d, a) => write!(out, "COPY {d} {a}; "),
        Instr::Add(d, a, b) => write!(out, "ADD {d} {a} {b}; "),
        Instr::Sub(d, a, b) => write!(out, "SUB {d} {a} {b}; "),
        Instr::Mul(d, a, b) => write!(out, "MUL {d} {a} {b}; "),
        Instr::InitSync(slot, count, reset, fiber) => {
            write!(out, "INIT_SYNC {slot} {count} {reset} {fiber}; ")
        }
        Instr::PrintSync(string, cells, slot) => {
            let string = str::from_utf8(string.as_slice()).unwrap_or("no text");
            let cells = cells.as_slice();
            write!(out, "PRINT_SYNC {string:?} {cells:?} {slot}; ")
        }
        Instr::EndFunction(cells) => {
            let cells = cells.as_slice();
            write!(out, "END_FUNCTION {cells:?}; ")
        }
        Instr::EndFiber => write!(out, "END_FIBER; "),
    }
}

/// The code of a fiber as a text.
fn fiber_text(alloc: Global, instrs: &[Instr]) -> Result<String, AllocError> {
    let mut out = String::new(alloc);
    for instr in instrs {
        write_instr(&mut out, instr)?;
    }
    Ok(out)
}

/// The fibers of the function of `SOURCE`.
const FIBERS: &[&str] = &[
    "CONST 0 2; COPY 1 0; CONST 2 5; SUB 0 1 2; COPY 1 0; COPY 2 0; COPY 3 0; MUL 2 2 3; INIT_SYNC 0 1 1 1; PRINT_SYNC \"%d %d\" [1, 2] 0; END_FIBER; ",
    "COPY 1 0; CONST 2 3; ADD 1 1 2; END_FUNCTION [1]; ",
];

fn has_fibers(rt: &impl Abort, alloc: Global, main: &Function) -> Result<(), AllocError> {
    assert_eq!(rt; main.fibers.len(), FIBERS.len());
    for (fiber, wanted) in main.fibers.as_slice().iter().zip(FIBERS) {
        let text = fiber_text(alloc, fiber.instrs.as_slice())?;
        assert_eq!(rt; text.as_str(), *wanted);
    }
    Ok(())
}

fn has_counts(rt: &impl Abort, main: &Function) {
    assert_eq!(rt; main.name.as_slice(), b"main".as_slice());
    assert_eq!(rt; main.params, 0);
    assert_eq!(rt; main.results, 1);
    assert_eq!(rt; main.cells, 4);
    assert_eq!(rt; main.slots, 1);
}

/// The code of `SOURCE`.
fn code(alloc: Global) -> Result<Code, Fail<usize>> {
    let program = program_of(alloc, SOURCE)?;
    Ok(split(alloc, &program)?)
}

#[test]
fn an_assignment_a_print_and_a_result(rt: HostRuntime) -> Result<(), Fail<usize>> {
    let code = code(rt.alloc())?;
    assert_eq!(rt; code.functions.len(), 1);
    let main = code.functions.get(0).expect(&rt, "there is no function");
    has_counts(&rt, main);
    has_fibers(&rt, rt.alloc(), main)?;
    Ok(())
}
