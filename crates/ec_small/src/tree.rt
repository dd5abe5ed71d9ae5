//! Trees of small programs.
use ec_base::{Boxed, List, Text};

/// A binary operator on numbers of 64 bits, which wraps.
#[derive(Clone, Copy, Debug, PartialEq, Eq)]
pub enum Operator {
    Add,
    Sub,
    Mul,
}

/// An expression. Variables are numbered in the order of their declarations, parentheses have no node.
#[derive(Drop)]
pub enum Expr {
    Number(i64),
    Var(u32),
    Binary(Operator, Boxed<Expr>, Boxed<Expr>),
}

/// A statement.
#[derive(Drop)]
pub enum Stmt {
    /// A variable is set to a value.
    Set(u32, Expr),
    /// A string is printed with values.
    Print(Text, List<Expr>),
}

/// A small program: for each variable its initialiser, then statements, then the result.
#[derive(Drop)]
pub struct Program {
    pub inits: List<Option<Expr>>,
    pub stmts: List<Stmt>,
    pub result: Expr,
}
