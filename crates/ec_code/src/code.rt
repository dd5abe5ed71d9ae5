//! Fiber code.
use crate::instr::Instr;
use ec_base::{List, Text};

/// Functions, the number of the one that a run begins with among them.
#[derive(Drop)]
pub struct Code {
    pub main: u32,
    pub functions: List<Function>,
}

/// A threaded function: its frames have `cells` cells, the arguments in the first, and `slots` slots. Fiber 0 begins it.
#[derive(Drop)]
pub struct Function {
    pub name: Text,
    pub params: u32,
    pub results: u32,
    pub cells: u32,
    pub slots: u32,
    pub fibers: List<Fiber>,
}

/// Instructions that run without preemption.
#[derive(Drop)]
pub struct Fiber {
    pub instrs: List<Instr>,
}
