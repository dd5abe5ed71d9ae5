//! What units hand each other.
use ec_base::{Birth, Block, List, Span, Text, Value};

/// Where an answer goes: a slot of a frame of a node, and the cell that it fills.
#[derive(Clone, Copy)]
pub struct Back {
    pub node: u32,
    pub frame: u64,
    pub cell: Option<u32>,
    pub slot: u32,
}

/// A call: the function and its arguments, its birth, and the frame, cells and slot to which its results go.
#[derive(Drop)]
pub struct Call {
    pub function: u32,
    pub args: List<Value>,
    pub birth: Option<Birth>,
    pub node: u32,
    pub frame: u64,
    pub cells: List<u32>,
    pub slot: u32,
}

/// Work for an execution unit.
#[derive(Drop)]
pub enum Entry {
    /// A filled slot starts its fiber.
    Start {
        frame: u64,
        fiber: u32,
        slot: u32,
        filling: u64,
    },
    /// A call begins.
    Enter {
        call: Call,
    },
    /// Reads a cell of an element, and answers it.
    Load {
        block: Block,
        index: i64,
        size: u32,
        off: i64,
        at: Span,
        back: Back,
    },
    /// Sets a cell of an element, and answers that it is done.
    Store {
        block: Block,
        index: i64,
        size: u32,
        off: i64,
        value: Value,
        at: Span,
        back: Back,
    },
    /// Adds a number to a block's first cell, and answers that it is done.
    Add {
        block: Block,
        value: Value,
        at: Span,
        back: Back,
    },
    /// Reads an element, and hands it to the node that it is copied to.
    CopyOut {
        block: Block,
        index: i64,
        size: u32,
        to: Block,
        to_index: i64,
        at: Span,
        at_to: Span,
        back: Back,
    },
    /// Sets an element, and answers that it is done.
    CopyIn {
        block: Block,
        index: i64,
        cells: List<Value>,
        at: Span,
        back: Back,
    },
    /// Values for cells of a frame, then a sync of a slot.
    Fill {
        frame: u64,
        slot: u32,
        cells: List<u32>,
        values: List<Value>,
    },
    /// Bytes for the output, then a sync.
    Print {
        bytes: Text,
        back: Back,
    },
}

/// A message for a synchronisation unit.
#[derive(Drop)]
pub enum Message {
    /// Sets a slot up.
    Init {
        frame: u64,
        slot: u32,
        count: u32,
        reset: u32,
        fiber: u32,
    },
    /// Adds one to a slot's count.
    Incr {
        frame: u64,
        slot: u32,
    },
    /// Takes one from a slot's count.
    Sync {
        node: u32,
        frame: u64,
        slot: u32,
    },
    /// Work for a node's execution unit.
    Work {
        node: u32,
        entry: Entry,
    },
    /// Forgets a frame's slots.
    EndFrame {
        frame: u64,
    },
}
