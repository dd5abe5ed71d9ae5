//! The execution unit: it runs fibers, and does what entries ask of its memory.
//! `specs/Instructions.antt` says what each instruction does, `specs/Fibers.antt` what a fiber run does, and
//! `specs/Entries.antt` what an entry does.
#![tactic(auto)]

mod eu;
mod laws;
mod state;

pub use eu::Eu;
pub use laws::effects_stand_alone;
pub use state::{Activation, Caller, EuEnd, Next, Spawned};
