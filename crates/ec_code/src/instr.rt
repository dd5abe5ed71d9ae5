//! Instructions.
use crate::call_place::CallPlace;
use ec_base::{List, Span, Text};

/// An instruction; its operands stand in the order of the Threaded-C text: cells, slots, fibers and functions by number.
/// A value that is no number counts as 0 where a number is asked for, one that is no pointer as NULL where a pointer is.
#[derive(Drop)]
pub enum Instr {
    /// Sets a cell to a number.
    Const(u32, i64),
    /// Sets a cell to NULL.
    Nil(u32),
    /// Sets a cell to what another holds.
    Copy(u32, u32),
    /// Sets a cell to the negative of another, modulo 2^64.
    Neg(u32, u32),
    /// Sets a cell to another with each bit turned.
    Inv(u32, u32),
    /// Sets a cell to 1 where another is 0, else to 0.
    Not(u32, u32),
    /// Sets a cell to the sum of two, modulo 2^64.
    Add(u32, u32, u32),
    /// Sets a cell to the difference of two, modulo 2^64.
    Sub(u32, u32, u32),
    /// Sets a cell to the product of two, modulo 2^64.
    Mul(u32, u32, u32),
    /// Sets a cell to the bits that two have in common.
    And(u32, u32, u32),
    /// Sets a cell to the bits that one of two has.
    Or(u32, u32, u32),
    /// Sets a cell to the bits in which two differ.
    Xor(u32, u32, u32),
    /// Sets a cell to the second, shifted left by the third modulo 64.
    Shl(u32, u32, u32),
    /// Sets a cell to the second, shifted right by the third modulo 64; the sign is kept.
    Shr(u32, u32, u32),
    /// Sets a cell to 1 where two numbers are equal, else to 0.
    Eq(u32, u32, u32),
    /// Sets a cell to 1 where two numbers differ, else to 0.
    Ne(u32, u32, u32),
    /// Sets a cell to 1 where the second is less than the third, else to 0.
    Lt(u32, u32, u32),
    /// Sets a cell to 1 where the second is at most the third, else to 0.
    Le(u32, u32, u32),
    /// Sets a cell to 1 where the second is greater than the third, else to 0.
    Gt(u32, u32, u32),
    /// Sets a cell to 1 where the second is at least the third, else to 0.
    Ge(u32, u32, u32),
    /// Sets a cell to the quotient of two, truncated toward zero; traps where the third is 0.
    Div(u32, u32, u32, Span),
    /// Sets a cell to the remainder of two, with the sign of the second; traps where the third is 0.
    Rem(u32, u32, u32, Span),
    /// Sets a cell to 1 where two pointers are equal, else to 0.
    Same(u32, u32, u32),
    /// Sets a cell to 1 where a pointer is NULL, else to 0.
    IsNil(u32, u32),
    /// Traps unless a number is at least 0 and below this length.
    Check(u32, u32, Span),
    /// Sets a cell to a new block of as many elements as a cell says: their size, and a bit for each of their cells that is
    /// NULL at first. Traps where the count is below 1, or count times size is above `MAX_BLOCK`. A birth.
    Alloc(u32, u32, u32, u64, Span),
    /// Sets a cell to what a block of the own node holds: the pointer, the element's index and size, and the cell in it.
    Load(u32, u32, u32, u32, u32, Span),
    /// Sets what a block of the own node holds: the pointer, the element's index and size, the cell in it, and the value.
    Store(u32, u32, u32, u32, u32, Span),
    /// Goes on at an instruction further down.
    Jump(u32),
    /// Goes on at an instruction further down where a number is 0.
    JumpZ(u32, u32),
    /// Sets a slot up: its count, its reset count, and the fiber that its filling starts.
    InitSync(u32, u32, u32, u32),
    /// Takes one from a slot's count.
    Sync(u32),
    /// Adds one to a slot's count.
    IncrSync(u32),
    /// Reads what a block holds into a cell, then syncs a slot: the pointer, the element's index and size, the cell in it, the
    /// cell that is set, and the slot.
    GetSync(u32, u32, u32, u32, u32, u32, Span),
    /// Writes a value into a block, then syncs a slot: the value, the pointer, the element's index and size, the cell in it,
    /// and the slot.
    DataSync(u32, u32, u32, u32, u32, u32, Span),
    /// Copies an element to another, then syncs a slot: the source's pointer and index, those of the target, the size, the
    /// slot, and the places of source and target.
    BlkmovSync(u32, u32, u32, u32, u32, u32, Span, Span),
    /// Adds a number to a block's first cell, then syncs a slot.
    AddSync(u32, u32, u32, Span),
    /// Prints a string with the numbers of cells, then syncs a slot.
    PrintSync(Text, List<u32>, u32),
    /// Calls a function: where its frame is made, the cells that take the results, the slot that is synced once they are
    /// there, and the cells of the arguments. A birth.
    Invoke(u32, CallPlace, List<u32>, u32, List<u32>),
    /// Starts a fiber of the frame later.
    Spawn(u32),
    /// Answers the values of cells to the caller and ends the frame.
    EndFunction(List<u32>),
    /// Ends the fiber.
    EndFiber,
}
