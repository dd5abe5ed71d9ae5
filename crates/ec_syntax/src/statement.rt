//! Statements and declarations.
use crate::expression::{Call, Expr};
use crate::name::{Mode, Name, Ty};
use ec_base::{Boxed, List, Span, Text};

/// A variable or parameter, and its initialiser.
#[derive(Drop)]
pub struct Decl {
    pub name: Name,
    pub mode: Mode,
    pub ty: Ty,
    pub init: Option<Boxed<Expr>>,
}

/// A place or variable is set to a value. `i++` is `i = i + 1`.
#[derive(Drop)]
pub struct Assign {
    pub left: Expr,
    pub right: Expr,
}

/// What stands between braces.
#[cycle(statement)]
#[derive(Drop)]
pub struct Body {
    pub decls: List<Decl>,
    pub stmts: List<Stmt>,
}

/// A statement, from its first token to its last, or from its word to its `)` where it is one of `writeto`, `addto` and
/// `printf`.
#[cycle(statement)]
#[derive(Drop)]
pub struct Stmt {
    pub kind: StmtKind,
    pub at: Span,
}

/// What a statement is.
#[cycle(statement)]
#[derive(Drop)]
pub enum StmtKind {
    Empty,
    Body(Body),
    /// A parallel sequence of branches.
    Par(List<Stmt>),
    If(Boxed<Expr>, Boxed<Stmt>, Option<Boxed<Stmt>>),
    While(Boxed<Expr>, Boxed<Stmt>),
    /// A missing condition holds.
    For(Option<Boxed<Assign>>, Option<Boxed<Expr>>, Option<Boxed<Assign>>, Boxed<Stmt>),
    Forall(Boxed<Assign>, Boxed<Expr>, Boxed<Assign>, Boxed<Stmt>),
    Set(Boxed<Assign>),
    Eval(Boxed<Call>),
    WriteTo(Boxed<Expr>, Boxed<Expr>),
    AddTo(Boxed<Expr>, Boxed<Expr>),
    Print(Text, List<Expr>),
    Return(Option<Boxed<Expr>>),
}
