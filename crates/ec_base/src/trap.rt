//! Traps.
use crate::token::Span;

/// Why a program is ended.
#[derive(Clone, Copy)]
pub enum TrapKind {
    /// An access goes through NULL.
    Null,
    /// An index is below 0, or not below the number of elements.
    Bounds,
    /// The right side of `/` or `%` is 0.
    DivZero,
    /// A `malloc` asks for less than one element, or for more than `MAX_BLOCK` cells.
    BadSize,
}

/// A trap, at the access, operator or `malloc` that traps.
#[derive(Clone, Copy)]
pub struct Trap {
    pub kind: TrapKind,
    pub at: Span,
}
