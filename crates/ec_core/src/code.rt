//! Fiber code.
use ec_base::{List, Text};

/// Functions, the number of the one that a run begins with among them.
#[derive(Drop)]
pub struct Code {
    pub main: u32,
    pub functions: List<Function>,
}

/// A threaded function: its frames have `cells` cells, the arguments in the first, and `slots` slots. Fiber 0 begins
/// it.
#[derive(Drop)]
pub struct Function {
    pub name: Text,
    pub params: u32,
    pub results: u32,
    pub cells: u32,
    pub slots: u32,
    pub fibers: List<Fiber>,
}

/// Instructions that run without preemption.
#[derive(Drop)]
pub struct Fiber {
    pub instrs: List<Instr>,
}

/// An instruction; the operands stand in the order of the Threaded-C text.
#[derive(Drop)]
pub enum Instr {
    /// Sets a cell to a number.
    Const(u32, i64),
    /// Sets a cell to what another holds.
    Copy(u32, u32),
    /// Sets a cell to the sum of two, modulo 2^64.
    Add(u32, u32, u32),
    /// Sets a cell to the difference of two, modulo 2^64.
    Sub(u32, u32, u32),
    /// Sets a cell to the product of two, modulo 2^64.
    Mul(u32, u32, u32),
    /// Sets a slot up: its count, its reset count, and the fiber that its filling starts.
    InitSync(u32, u32, u32, u32),
    /// Prints a string with the values of cells, then syncs a slot.
    PrintSync(Text, List<u32>, u32),
    /// Answers the values of cells to the caller and ends the frame.
    EndFunction(List<u32>),
    /// Ends the fiber.
    EndFiber,
}
