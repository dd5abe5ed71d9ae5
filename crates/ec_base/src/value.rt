//! Values of cells, and what names blocks and births.

/// A block of a node: its number there, counted from 0.
#[derive(Clone, Copy)]
pub struct Block {
    pub node: u32,
    pub number: u64,
}

/// The `number`-th birth of a frame of a node, counted from 1.
#[derive(Clone, Copy)]
pub struct Birth {
    pub node: u32,
    pub frame: u64,
    pub number: u64,
}

/// What a cell holds.
#[derive(Clone, Copy)]
pub enum Value {
    Int(i64),
    Null,
    Ptr(Block),
}
