//! A node's memory.
ghost use Rattle.std.specs.Prelude.{◌≡◌};
ghost use Rattle.ec_cells.specs.Memory.{new_node};

use ec_base::{Birth, List, Value};
use std::alloc::Global;
use std::marker::Model;

/// The frame of one activation. It keeps one byte for each birth that it took; a frame that has ended keeps nothing.
#[derive(Drop)]
pub struct Frame {
    pub live: bool,
    pub cells: List<Value>,
    pub taken: List<u8>,
}

/// The births of a node's frames and blocks, ended frames included, each in the order of the numbers. A frame that no other
/// frame called has no birth.
#[derive(Drop)]
pub struct Births {
    pub frames: List<Option<Birth>>,
    pub blocks: List<Birth>,
}

/// The memory of a node. Frames and blocks are numbered from 0, and no number is used again.
#[derive(Drop)]
pub struct Node {
    pub(crate) number: u32,
    pub(crate) frames: Vec<Frame>,
    pub(crate) blocks: Vec<List<Value>>,
    pub(crate) births: Births,
}

impl Model for Node {
    ghost use Rattle.ec_cells.specs.Memory.{Memory};

    ghost Value = { Memory };

    ghost view = { λ n. record { node = n.number; frames = n.frames.items; blocks = n.blocks.items; births = n.births } };
}

impl Node {
    /// The memory of the node of this number, without frames and blocks.
    pub fn new(alloc: Global, node: u32) -> Node
        ensures { result ≡ new_node node }
    {
        Node {
            number: node,
            frames: Vec::new(alloc),
            blocks: Vec::new(alloc),
            births: Births {
                frames: List::new(alloc),
                blocks: List::new(alloc),
            },
        }
    }

    /// Its number.
    pub fn number(&self) -> u32
        ensures { result ≡ self.now.node }
    {
        self.number
    }

    /// The births of each frame and block.
    pub fn births(&self) -> &Births
        ensures { result.now ≡ self.now.births }
    {
        &self.births
    }
}
