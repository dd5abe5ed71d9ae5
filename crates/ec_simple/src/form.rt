//! Simple forms. Variables, functions, shapes and fields are numbers: their positions in the lists of their function, form
//! or shape.
use ec_base::{BinOp, Boxed, List, Span, Text, UnOp};

/// What the blocks of a program are made of, and its functions: the written ones in order, then those of branches and bodies
/// by their start in the source.
#[derive(Drop)]
pub struct Form {
    pub shapes: List<Shape>,
    pub funcs: List<SFunc>,
}

/// An element of a block. Shape 0 is an int, shape 1 a pointer, and from 2 on the structs in order.
#[derive(Drop)]
pub struct Shape {
    pub cells: u32,
    pub fields: List<SField>,
}

/// A field: its first cell, how many it has, and whether they are pointers. An int and a pointer have one field.
#[derive(Clone, Copy)]
pub struct SField {
    pub at: u32,
    pub cells: u32,
    pub pointer: bool,
}

/// What a function stands for.
#[derive(Clone, Copy)]
pub enum FuncKind {
    Written,
    /// A branch that is no call branch.
    Branch,
    /// The body of a `forall`.
    Body,
}

/// A function: its name, what it stands for, its variables, which of them are parameters, and which are its results.
#[derive(Drop)]
pub struct SFunc {
    pub name: Text,
    pub kind: FuncKind,
    pub vars: List<SVar>,
    pub params: List<u32>,
    pub results: List<u32>,
    pub body: List<SStmt>,
}

/// A variable: where it is declared or its node stands, whether it is local, whether it is a pointer, and then the shape of
/// the elements behind it.
#[derive(Clone, Copy)]
pub struct SVar {
    pub at: Span,
    pub local: bool,
    pub pointer: bool,
    pub shape: u32,
}

/// An access: the pointer, the index of the element, the element's shape, the field, and the index in an array field.
#[derive(Clone, Copy)]
pub struct SPlaceOf {
    pub base: u32,
    pub index: u32,
    pub shape: u32,
    pub field: u32,
    pub sub: Option<u32>,
    pub at: Span,
}

/// A use of a variable.
#[derive(Clone, Copy)]
pub struct VarUse {
    pub var: u32,
    pub at: Span,
}

/// Where a call is placed.
#[derive(Clone, Copy)]
pub enum SPlace {
    Here,
    Owner(u32),
    Home,
    Node(u32),
    Anywhere,
}

/// What a variable is set to. The span is that of a division.
#[derive(Clone, Copy)]
pub enum SExpr {
    Number(i64),
    Null,
    Var(u32),
    Unary(UnOp, u32),
    Binary(BinOp, u32, u32, Span),
    /// Whether two pointers are equal.
    SameBlock(u32, u32),
    IsNull(u32),
}

/// A call: the function, its arguments, the variables that its results go to, where it is placed, and which variables of
/// the function in which it stands it reads and writes, where it is a branch or body.
#[derive(Drop)]
pub struct SCall {
    pub func: u32,
    pub args: List<u32>,
    pub to: List<u32>,
    pub place: SPlace,
    pub at: Span,
    pub reads: List<VarUse>,
    pub writes: List<VarUse>,
}

/// A statement.
#[cycle(statement)]
#[derive(Drop)]
pub enum SStmt {
    Set(u32, SExpr),
    Load(u32, SPlaceOf),
    Store(SPlaceOf, u32),
    /// An element is copied: the target, then the source.
    Copy(Boxed<SPlaceOf>, Boxed<SPlaceOf>),
    /// A block of so many elements of a shape: the variable that points at it, the shape, and the count.
    New(u32, u32, u32, Span),
    /// A shared variable's block.
    Share(u32, Span),
    /// What a shared variable holds is read into a variable, or it is set to a variable's value, or that is added to it: the
    /// shared one first.
    Read(u32, u32, Span),
    Write(u32, u32, Span),
    Add(u32, u32, Span),
    Call(Boxed<SCall>),
    Print(Text, List<u32>),
    If(u32, List<SStmt>, List<SStmt>),
    /// What comes before each test, the test, and the body.
    Loop(List<SStmt>, u32, List<SStmt>),
    Par(Span, List<SBranch>),
    Forall(Boxed<SForall>),
    Return(Option<u32>),
}

/// A branch of a parallel sequence: what sets the arguments of its call, and the call.
#[cycle(statement)]
#[derive(Drop)]
pub struct SBranch {
    pub before: List<SStmt>,
    pub call: Boxed<SCall>,
}

/// A `forall`: its loop variable, what sets it first, what comes before each test, the test, the step, and the call of the
/// body; whether it counts up by 1 to a bound, and which variables its header reads and writes.
#[cycle(statement)]
#[derive(Drop)]
pub struct SForall {
    pub at: Span,
    pub var: u32,
    pub init: List<SStmt>,
    pub before: List<SStmt>,
    pub test: u32,
    pub step: List<SStmt>,
    pub body: Boxed<SCall>,
    pub counted: bool,
    pub reads: List<VarUse>,
    pub writes: List<VarUse>,
}
