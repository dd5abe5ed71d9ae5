//! What typed programs mean, evaluated from left to right: a machine takes works one by one from a list, and the activations
//! that wait stand on another, so that neither deep calls nor deep trees need the processor's stack. `means` is the call;
//! `specs/Laws.antt` says what the machine's steps keep.
#![tactic(auto)]

mod accesses;
mod activation;
mod allocation;
mod branches;
mod combining;
mod copying;
mod hand;
mod holding;
mod laws;
mod machine;
mod meaning;
mod meant;
mod memory;
mod opening;
mod operating;
mod operators;
mod performing;
mod remembering;
mod shared_state;
mod stack;
mod statements;
mod terms;
mod value;
mod work;

pub use laws::steps_keep_meanings;
pub use meaning::means;
pub use meant::{Meant, MeantEnd};
