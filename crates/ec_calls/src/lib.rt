//! Which calls, `malloc`s and `printf`s stand in the parts of a program, and which `printf` comes first among those
//! that the calls of a function reach. `specs/Effects.antt` says what stands where, and `specs/Prints.antt` what is
//! reached.
#![tactic(auto)]

mod called;
mod first;
mod functions;
mod graph;
mod laws;
mod names;
mod order;
mod printed;
mod reach;
mod statement;

pub use first::{FirstPrints, first_prints};
pub use laws::first_prints_exist;
