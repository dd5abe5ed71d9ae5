//! The synchronisation unit: it owns the slots of a node and routes messages.
//! `specs/Handle.antt` says what a message does.
#![tactic(auto)]

mod su;

pub use su::Su;
