//! The machine of nodes: an execution unit and a synchronisation unit each, and the rings between them.
//! `specs/Step.antt` says what one step does, `specs/Run.antt` what a list of steps gives.
#![tactic(auto)]

mod choice;
mod node;
mod nodes;
mod world;

pub use choice::{Act, Choice};
pub use node::NotEnabled;
pub use world::{World, enabled_exactly};
