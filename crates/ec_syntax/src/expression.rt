//! Expressions.
use crate::name::{Name, Ty};
use ec_base::{BinOp, Boxed, List, Span, Text, UnOp};

/// An expression, from its first token to its last; those of `i++` and `i--` all stand where `i` does.
#[cycle(expression)]
#[derive(Drop)]
pub struct Expr {
    pub kind: ExprKind,
    pub at: Span,
}

/// What an expression is.
#[cycle(expression)]
#[derive(Drop)]
pub enum ExprKind {
    Number(i64),
    Null,
    Var(Text),
    /// An expression in parentheses.
    Paren(Boxed<Expr>),
    Unary(UnOp, Boxed<Expr>),
    Binary(BinOp, Boxed<Expr>, Boxed<Expr>),
    /// `&&`, whose right side is evaluated only where the left one holds.
    And(Boxed<Expr>, Boxed<Expr>),
    /// `||`, whose right side is evaluated only where the left one doesn't hold.
    Or(Boxed<Expr>, Boxed<Expr>),
    /// `*e`
    Deref(Boxed<Expr>),
    /// `e[i]`
    Index(Boxed<Expr>, Boxed<Expr>),
    /// `e->f`
    Arrow(Boxed<Expr>, Text),
    /// `e.f`
    Dot(Boxed<Expr>, Text),
    Call(Call),
    /// A `malloc`: the type of its cast, its count, and the type of its elements.
    New(Option<Ty>, Option<Boxed<Expr>>, Ty),
    ValueOf(Boxed<Expr>),
    /// `&` and a name.
    Address(Text),
}

/// A call, from its name to the end of its placement.
#[cycle(expression)]
#[derive(Drop)]
pub struct Call {
    pub name: Name,
    pub args: List<Expr>,
    pub place: Placement,
    pub at: Span,
}

/// On which node a call runs.
#[cycle(expression)]
#[derive(Drop)]
pub enum Placement {
    /// On the caller's.
    Here,
    /// On the one that owns a block.
    OwnerOf(Boxed<Expr>),
    /// On the first one.
    Home,
    /// On the one of this number.
    Node(Boxed<Expr>),
    /// On whichever has time for it.
    Anywhere,
}
