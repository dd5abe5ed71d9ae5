//! Expressions whose names and types are resolved. What stood in parentheses stands for itself.
use ec_base::{BinOp, Boxed, List, Span, UnOp};

/// An expression. A shape is the number of an element type: 0 an int, 1 a pointer, and from 2 on the structs in order.
#[cycle(term)]
#[derive(Drop)]
pub enum Term {
    Number(Span, i64),
    Nil(Span),
    /// The variable of this number, or `&` and a shared one.
    Var(Span, usize),
    Unary(Span, UnOp, Boxed<Term>),
    Binary(Span, BinOp, Boxed<Term>, Boxed<Term>),
    And(Span, Boxed<Term>, Boxed<Term>),
    Or(Span, Boxed<Term>, Boxed<Term>),
    /// What is loaded may be a pointer to elements of this shape.
    Load(Option<u32>, Place),
    Call(Invocation),
    New(Allocation),
    ValueOf(Span, Boxed<Term>),
}

/// A `malloc`: the shape of an element, for each of its cells whether it is a pointer, and how many elements; one, where that
/// is missing.
#[cycle(term)]
#[derive(Drop)]
pub struct Allocation {
    pub at: Span,
    pub shape: u32,
    pub pointers: List<bool>,
    pub count: Option<Boxed<Term>>,
}

/// The number of a field in its struct, its first cell, and the length of an array field, otherwise 1.
#[derive(Clone, Copy)]
pub struct Extent {
    pub number: u32,
    pub first: u32,
    pub length: u32,
}

/// An access. Sizes are the cells of an element.
#[cycle(term)]
#[derive(Drop)]
pub enum Place {
    /// `*e` and `e[i]`: the size, the pointer, and the index.
    Element(Span, u32, Boxed<Term>, Option<Boxed<Term>>),
    /// `e->f`: the size, the field, and the pointer.
    Behind(Span, u32, Extent, Boxed<Term>),
    /// `.f`: the field, and the element.
    Field(Span, Extent, Boxed<Place>),
    /// `[i]` on an array field.
    Item(Span, Boxed<Place>, Boxed<Term>),
}

/// A call: the number of the function, its arguments, and its placement.
#[cycle(term)]
#[derive(Drop)]
pub struct Invocation {
    pub at: Span,
    pub function: usize,
    pub args: List<Term>,
    pub placing: Placing,
}

/// Where a call is placed, with its operand.
#[cycle(term)]
#[derive(Drop)]
pub enum Placing {
    Here,
    OwnerOf(Boxed<Term>),
    Home,
    Node(Boxed<Term>),
    Anywhere,
}
