//! Statements, functions and programs whose names and types are resolved.
use crate::term::{Invocation, Place, Term};
use ec_base::{Boxed, List, Span, Text};

/// A variable or place is set, or an element is copied.
#[derive(Drop)]
pub enum Assignment {
    /// The variable of this number, which stands there.
    SetVar(Span, usize, Term),
    Store(Place, Term),
    /// Target, then source.
    Copy(Place, Place),
}

/// A variable is declared.
#[derive(Drop)]
pub enum Declared {
    /// The variable of this number, whether it is a pointer, and its initialiser.
    Plain(usize, bool, Option<Boxed<Term>>),
    /// The shared variable of this number.
    Shared(usize),
}

/// A statement.
#[cycle(action)]
#[derive(Drop)]
pub enum Action {
    Skip,
    Block(Block),
    /// A parallel sequence of branches.
    Par(Span, List<Action>),
    If(Boxed<Term>, Boxed<Action>, Option<Boxed<Action>>),
    While(Boxed<Term>, Boxed<Action>),
    For(Span, Boxed<ForHeader>, Boxed<Action>),
    Forall(Span, Boxed<ForallHeader>, Boxed<Action>),
    Set(Boxed<Assignment>),
    Eval(Boxed<Invocation>),
    WriteTo(Span, Boxed<Term>, Boxed<Term>),
    AddTo(Span, Boxed<Term>, Boxed<Term>),
    Print(Text, List<Term>),
    Return(Option<Boxed<Term>>),
}

/// What stands between braces.
#[cycle(action)]
#[derive(Drop)]
pub struct Block {
    pub decls: List<Declared>,
    pub actions: List<Action>,
}

/// The header of a `for`. A missing condition holds.
#[derive(Drop)]
pub struct ForHeader {
    pub first: Option<Boxed<Assignment>>,
    pub test: Option<Boxed<Term>>,
    pub last: Option<Boxed<Assignment>>,
}

/// The header of a `forall`.
#[derive(Drop)]
pub struct ForallHeader {
    pub first: Boxed<Assignment>,
    pub test: Boxed<Term>,
    pub last: Boxed<Assignment>,
}

/// A variable or parameter: where it is declared, whether it is shared or local, and the shape behind it where it is a pointer.
#[derive(Clone, Copy)]
pub struct Variable {
    pub at: Span,
    pub shared: bool,
    pub local: bool,
    pub pointer: Option<u32>,
}

/// A function: the numbers of its parameters, which are among its variables, whether it gives nothing or a pointer, the shape
/// behind that, and its body.
#[derive(Drop)]
pub struct Function {
    pub params: List<usize>,
    pub variables: List<Variable>,
    pub void: bool,
    pub pointer: bool,
    pub shape: u32,
    pub body: Block,
}

/// A program: its functions, and the number of main.
#[derive(Drop)]
pub struct Resolved {
    pub functions: List<Function>,
    pub main: usize,
}
