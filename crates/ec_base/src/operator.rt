//! Operators on numbers of 64 bits.

/// A binary operator of the language that evaluates both of its sides, named for what it does.
#[derive(Clone, Copy)]
pub enum BinOp {
    /// `+`, which wraps.
    Add,
    /// `-`, which wraps.
    Sub,
    /// `*`, which wraps.
    Mul,
    /// `/`, which truncates toward zero.
    Div,
    /// `%`, with the sign of the left side.
    Rem,
    /// `&`
    And,
    /// `|`
    Or,
    /// `^`
    Xor,
    /// `<<`
    Shl,
    /// `>>`, which keeps the sign.
    Shr,
    /// `==`
    Eq,
    /// `!=`
    Ne,
    /// `<`
    Lt,
    /// `<=`
    Le,
    /// `>`
    Gt,
    /// `>=`
    Ge,
}

/// A unary operator.
#[derive(Clone, Copy)]
pub enum UnOp {
    /// `-`, which wraps.
    Neg,
    /// `~`
    Inv,
    /// `!`
    Not,
}
