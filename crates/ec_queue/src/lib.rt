//! Queues, and rows of queues, which contracts see as lists.
//! `specs/Queues.antt` says what is put and taken.
#![tactic(auto)]

mod queue;
mod queues;

pub use queue::Queue;
pub use queues::Queues;
