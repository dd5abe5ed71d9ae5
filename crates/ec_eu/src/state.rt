//! What an execution unit keeps beside its memory.
use ec_base::{List, Trap};

/// Where a frame's results go: a frame of a node, its cells, and the slot that is synced once they are there.
#[derive(Drop)]
pub struct Caller {
    pub node: u32,
    pub frame: u64,
    pub cells: List<u32>,
    pub slot: u32,
}

/// What a live frame was made for: the function whose fibers it runs, and where its results go.
#[derive(Drop)]
pub struct Activation {
    pub function: u32,
    pub caller: Caller,
}

/// A fiber that waits for its first run.
#[derive(Clone, Copy)]
pub struct Spawned {
    pub frame: u64,
    pub fiber: u32,
}

/// What comes after an instruction.
#[derive(Clone, Copy)]
pub enum Next {
    /// The instruction behind it.
    On,
    /// A later instruction, by its place in the fiber.
    To(u32),
    /// Nothing: the fiber has ended.
    Ends,
    /// Nothing: it has trapped.
    Traps(Trap),
}

/// How a step of an execution unit ended.
#[derive(Clone, Copy)]
pub enum EuEnd {
    Went,
    Trapped(Trap),
}
