//! The memory of a node: cells of frames, blocks of the heap, and the births of both.
//! `specs/Memory.antt` says what a node's memory is, `specs/Frames.antt`, `specs/Blocks.antt` and `specs/Accesses.antt` what
//! becomes of it and what is read of it.
#![tactic(auto)]

mod blocks;
mod elements;
mod frames;
mod node;
mod places;

pub use blocks::as_int;
pub use node::{Births, Frame, Node};
