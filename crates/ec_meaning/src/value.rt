//! Values, blocks and accesses.
use ec_base::{List, Span};
use ec_resolve::Extent;

/// A value; blocks are numbered in the order of their births.
#[derive(Clone, Copy)]
pub(crate) enum Value {
    Int(i64),
    Null,
    To(usize),
}

/// A block: the births that lead to it, and its cells.
#[derive(Drop)]
pub(crate) struct Block {
    pub(crate) path: List<u64>,
    pub(crate) cells: Vec<Value>,
}

/// An access: where it stands, the pointer, the index of the element, the cells of an element, the field's cells, and the
/// index in an array field.
#[derive(Clone, Copy)]
pub(crate) struct Access {
    pub(crate) at: Span,
    pub(crate) base: Value,
    pub(crate) index: i64,
    pub(crate) size: u32,
    pub(crate) field: Extent,
    pub(crate) item: i64,
}
