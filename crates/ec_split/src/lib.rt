//! Fiber splitting: from programs to fiber code.
//! `specs/Owes.antt` says which instructions a program is owed, and which cells have to stand, `specs/Cut.antt` which
//! cells and fibers they get.
#![tactic(auto)]

mod arguments;
mod builder;
mod expression;
mod function;
mod width;

pub use function::split;
