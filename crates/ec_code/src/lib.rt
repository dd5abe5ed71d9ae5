//! Fiber code, and what the units of the machine hand each other.
//! `specs/Valid.antt` says which code is valid, and `specs/InPlace.antt` which messages may stand where.
#![tactic(auto)]

mod call_place;
mod code;
mod instr;
mod message;
mod operands;
mod validity;

pub use call_place::CallPlace;
pub use code::{Code, Fiber, Function};
pub use instr::Instr;
pub use message::{Back, Call, Entry, Message};
pub use validity::valid;
