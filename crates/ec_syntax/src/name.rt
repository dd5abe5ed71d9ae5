//! Names and types.
use ec_base::{Span, Text};

/// A name, and where it stands.
#[derive(Debug, Drop, PartialEq, Eq)]
pub struct Name {
    pub text: Text,
    pub at: Span,
}

/// What a type begins with.
#[derive(Debug, Drop, PartialEq, Eq)]
pub enum Base {
    Void,
    Int,
    Struct(Name),
}

/// A type: `stars` pointers to its base.
#[derive(Debug, Drop, PartialEq, Eq)]
pub struct Ty {
    pub base: Base,
    pub stars: u32,
}

/// How a variable or parameter is declared: plainly, as a pointer into this node, or as shared by parallel branches.
#[derive(Clone, Copy, Debug, PartialEq, Eq)]
pub enum Mode {
    Plain,
    Local,
    Shared,
}
