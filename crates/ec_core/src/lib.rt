//! The machine: nodes with an execution unit and a synchronisation unit each, and the rings between them.
//! `specs/Step.antt` says what one step does, `specs/Run.antt` what a list of steps gives.
#![tactic(auto)]

mod choice;
mod code;
mod eu;
mod message;
mod node;
mod nodes;
mod queue;
mod slots;
mod su;
mod world;

pub use choice::{Act, Choice, Run, Stamped};
pub use code::{Code, Fiber, Function, Instr};
pub use message::{Back, Call, Entry, Message};
pub use node::NotEnabled;
pub use world::{World, enabled_exactly};
